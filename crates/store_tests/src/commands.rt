//! What commands print, and how they end.
use crate::fixtures::{EDGES, GRAMMAR, PRINTED, RUN, path_prints, path_says, prints, says};
use disk_model::{Disk, MemDisk};
use std::alloc::Global;
use std::test::Fail;

// Worked out by hand.
#[test]
fn a_run_prints_partitions_labels_and_answers(rt: HostRuntime) -> Result<(), Fail> {
    let alloc = rt.alloc();
    for (edges, grammar, words, printed) in [
        (EDGES, GRAMMAR, RUN.as_slice(), PRINTED),
        // No edge, an empty rule, and a vertex on no edge.
        (
            b"",
            b"S\n",
            ["run", "e", "g"].as_slice(),
            b"vertices 0\nlabel S 0\ndone\n".as_slice(),
        ),
        (
            b"0 2 x\n",
            b"S\n",
            ["run", "e", "g"].as_slice(),
            b"vertices 3\npart 0 0 3 4\nlabel S 3\nlabel x 1\ndone\n",
        ),
        // Brackets in one partition and in two, single rules in a cycle, and rules that begin alike.
        (
            b"0 0 (\n0 1 )\n1 0 )\n",
            b"S\nS ( S ) S\n",
            RUN.as_slice(),
            b"vertices 2\npart 0 0 2 13\nlabel S 3\nlabel ( 1\nlabel ) 2\nanswer 0 0\nanswer 0 1\nanswer 1 1\ndone\n",
        ),
        (
            b"0 0 (\n0 1 )\n1 0 )\n",
            b"S\nS ( S ) S\n",
            ["run", "e", "g", "--part-edges", "1"].as_slice(),
            b"vertices 2\npart 0 0 1 7\npart 1 1 2 6\nlabel S 3\nlabel ( 1\nlabel ) 2\ndone\n",
        ),
        (
            b"0 1 A\n1 2 B\n",
            b"A B\nB A\n",
            ["run", "e", "g"].as_slice(),
            b"vertices 3\npart 0 0 3 4\nlabel A 2\nlabel B 2\ndone\n",
        ),
        (
            b"0 1 a\n1 2 b\n2 3 c\n3 4 d\n4 5 e\n",
            b"S a b c d e\nT a b c x y\n",
            ["run", "e", "g"].as_slice(),
            b"vertices 6\npart 0 0 6 9\nlabel S 1\nlabel a 1\nlabel b 1\nlabel c 1\nlabel d 1\nlabel e 1\nlabel T 0\nlabel x 0\nlabel y 0\ndone\n",
        ),
        // Blanks, a remark, and lines that say an edge twice.
        (
            b"0 1 a\r\n0\t1  a\n# note\n\n 0 1 a",
            b"S a\n",
            ["run", "e", "g"].as_slice(),
            b"vertices 2\npart 0 0 2 2\nlabel S 1\nlabel a 1\ndone\n",
        ),
    ] {
        let mut disk = MemDisk::new(alloc)?;
        assert!(rt; prints(alloc, &mut disk, edges, grammar, words, (printed, 0))?);
    }
    Ok(())
}

#[test]
fn a_finished_store_is_asked(rt: HostRuntime) -> Result<(), Fail> {
    let alloc = rt.alloc();
    let mut disk = MemDisk::new(alloc)?;
    let edges = b"0 0 (\n0 1 )\n1 0 )\n".as_slice();
    let grammar = b"S\nS ( S ) S\n".as_slice();
    for (words, printed, code) in [
        (
            ["query", "S", "0"].as_slice(),
            b"fault no store\n".as_slice(),
            9,
        ),
        (["dump"].as_slice(), b"fault no store\n", 9),
        (["parts"].as_slice(), b"fault no store\n", 9),
        (
            ["run", "e", "g", "--show", "Z"].as_slice(),
            b"fault not known\n",
            11,
        ),
        (
            ["query", "S", "0"].as_slice(),
            b"answer 0 0\nanswer 0 1\ncount 2\n",
            0,
        ),
        (["query", "S", "1", "0"].as_slice(), b"count 0\n", 0),
        (
            ["query", "S", "1", "1"].as_slice(),
            b"answer 1 1\ncount 1\n",
            0,
        ),
        (
            ["dump"].as_slice(),
            b"0 0 S\n0 1 S\n0 0 (\n0 1 )\n1 1 S\n1 0 )\n",
            0,
        ),
        (
            ["parts"].as_slice(),
            b"vertices 2\npart 0 0 2 13\nfinished\n",
            0,
        ),
        (["query", "Z", "0"].as_slice(), b"fault not known\n", 11),
        (["query", "S", "2"].as_slice(), b"fault not known\n", 11),
        (
            ["query", "S", "0", "2"].as_slice(),
            b"fault not known\n",
            11,
        ),
        (["query", "S"].as_slice(), b"fault words\n", 1),
    ] {
        assert!(rt; prints(alloc, &mut disk, edges, grammar, words, (printed, code))?);
    }
    Ok(())
}

#[test]
fn a_second_run_writes_nothing_and_other_files_are_refused(rt: HostRuntime) -> Result<(), Fail> {
    let alloc = rt.alloc();
    let mut disk = MemDisk::new(alloc)?;
    let (first, _) = path_says(alloc, &mut disk, &RUN)?;
    assert_eq!(rt; first.bytes(), PRINTED);
    let writes = disk.writes();
    assert!(rt; path_prints(alloc, &mut disk, &RUN, (PRINTED, 0))?);
    assert_eq!(rt; disk.writes(), writes);
    for (edges, grammar, printed) in [
        (
            EDGES,
            b"S a b\n\n".as_slice(),
            b"fault other grammar 6\n".as_slice(),
        ),
        (EDGES, b"S a", b"fault other grammar 3\n"),
        (EDGES, b"S x b\n", b"fault other grammar 2\n"),
        (b"0 1 a\n1 3 b\n", GRAMMAR, b"fault other edges 8\n"),
    ] {
        assert!(rt; prints(alloc, &mut disk, edges, grammar, &RUN, (printed, 3))?);
    }
    assert_eq!(rt; disk.writes(), writes);
    Ok(())
}

#[test]
fn a_damaged_store_is_blamed(rt: HostRuntime) -> Result<(), Fail> {
    let alloc = rt.alloc();
    let mut disk = MemDisk::new(alloc)?;
    let _ = path_says(alloc, &mut disk, &RUN)?;
    // One byte behind the partition's last.
    let Ok(()) = disk.write_at(5, 24, b"\0") else {
        panic!(rt; "not written");
    };
    assert!(rt;
        path_prints(
            alloc,
            &mut disk,
            &["query", "S", "0"],
            (b"fault store 5 24 Extra\n".as_slice(), 8)
        )?
    );
    // The current slot is cut, and the other one isn't taken in its stead.
    let Ok(()) = disk.cut(1, 75) else {
        panic!(rt; "not cut");
    };
    for words in [["parts"].as_slice(), RUN.as_slice()] {
        assert!(rt;
            path_prints(
                alloc,
                &mut disk,
                words,
                (b"fault store 1 68 Short\n".as_slice(), 8)
            )?
        );
    }
    Ok(())
}

#[test]
fn the_first_fault_of_a_file_is_told(rt: HostRuntime) -> Result<(), Fail> {
    let alloc = rt.alloc();
    for (edges, grammar, printed) in [
        (
            b"0 1 a\n0 1\n".as_slice(),
            GRAMMAR,
            b"fault input edges 2 WrongCount\n".as_slice(),
        ),
        (
            EDGES,
            b"S a\r\n\n# remark\nS a \x01\n",
            b"fault input grammar 4 BadLabel\n",
        ),
        (
            b"0 16777216 a",
            b"",
            b"fault input edges 1 BadDestination\n",
        ),
    ] {
        let mut disk = MemDisk::new(alloc)?;
        assert!(rt; prints(alloc, &mut disk, edges, grammar, &RUN, (printed, 2))?);
        assert!(rt;
            prints(
                alloc,
                &mut disk,
                edges,
                grammar,
                &["parts"],
                (b"fault no store\n".as_slice(), 9)
            )?
        );
    }
    Ok(())
}

/// The lines `0 0 l0` to `0 0 lN`.
fn many_labels(alloc: Global, last: u32) -> Result<Vec<u8>, Fail> {
    let mut text = Vec::new(alloc);
    for n in 0..=last {
        let line = format!(in alloc; "0 0 l{n}\n")?;
        text.extend_from_slice(line.as_bytes())?;
    }
    Ok(text)
}

#[test]
fn a_thousand_labels_are_there(rt: HostRuntime) -> Result<(), Fail> {
    let alloc = rt.alloc();
    let mut disk = MemDisk::new(alloc)?;
    let edges = many_labels(alloc, 1000)?;
    assert!(rt;
        prints(
            alloc,
            &mut disk,
            &edges,
            b"",
            &["run", "e", "g"],
            (b"fault input edges 1001 TooManyLabels\n".as_slice(), 2)
        )?
    );
    let edges = many_labels(alloc, 999)?;
    let (_, code) = says(alloc, &mut disk, &edges, b"", &["run", "e", "g"])?;
    assert_eq!(rt; code, 0);
    Ok(())
}
