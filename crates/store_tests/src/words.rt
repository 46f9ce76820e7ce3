//! The words of command lines.
use crate::fixtures::word_list;
use closing_options::RunOptions;
use command_words::{Command, WordsFault, read_command};
use std::test::Fail;

const DEFAULTS: RunOptions = RunOptions {
    workers: 4,
    part_edges: 1_000_000,
    budget: 16_000_000,
};

/// The command of `run e g` with these options.
fn run_with(options: RunOptions) -> Command<'static> {
    Command::Run {
        edges: "e",
        grammar: "g",
        options,
        show: None,
    }
}

#[test]
fn words_that_mean_no_command(rt: HostRuntime) -> Result<(), Fail> {
    let alloc = rt.alloc();
    let rows: [&[&str]; 26] = [
        &[],
        &["go"],
        &["run", "e"],
        &["run", "e", "g", "h"],
        &["run", "e", "g", "--workers", "2", "--workers", "3"],
        &["run", "e", "g", "--workers=2", "--workers", "3"],
        &["run", "e", "g", "--workers", "0"],
        &["run", "e", "g", "--workers", "65"],
        &["run", "e", "g", "--workers", "99999999999999999999999"],
        &["run", "e", "g", "--workers", "+4"],
        &["run", "e", "g", "--workers="],
        &["run", "e", "g", "--workers"],
        &["run", "e", "g", "--show", "-a"],
        &["run", "e", "g", "--show=a b"],
        &["run", "e", "g", "--part-edges", "0"],
        &["run", "e", "g", "--budget=4294967296"],
        &["run", "e", "g", "--help"],
        &["run", "e", "g", "-h"],
        &["run", "", "g"],
        &["dump", "--", ""],
        &["query", "-a", "0"],
        &["query", "a", "16777216"],
        &["query", "a", "0", "--workers", "2"],
        &["emit", "c", "f"],
        &["trial", "1"],
        &["parts", "-"],
    ];
    for row in rows {
        let words = word_list(alloc, row)?;
        assert!(rt; read_command(alloc, &words) == Err(WordsFault::Words));
    }
    Ok(())
}

#[test]
fn a_run_has_its_options(rt: HostRuntime) -> Result<(), Fail> {
    let alloc = rt.alloc();
    let one = RunOptions {
        workers: 1,
        ..DEFAULTS
    };
    let seven = RunOptions {
        workers: 7,
        ..DEFAULTS
    };
    let most = RunOptions {
        workers: 64,
        part_edges: 4_294_967_295,
        budget: 4_294_967_295,
    };
    let least = RunOptions {
        part_edges: 1,
        ..DEFAULTS
    };
    let rows: [(&[&str], RunOptions); 6] = [
        (&["run", "e", "g"], DEFAULTS),
        (&["run", "e", "g", "--workers", "1"], one),
        (&["run", "e", "g", "--workers=007"], seven),
        (
            &[
                "run",
                "--workers=64",
                "e",
                "--part-edges",
                "4294967295",
                "g",
                "--budget=4294967295",
            ],
            most,
        ),
        (&["run", "--part-edges", "1", "e", "g"], least),
        (&["run", "--", "e", "g"], DEFAULTS),
    ];
    for (row, options) in rows {
        let words = word_list(alloc, row)?;
        assert!(rt; read_command(alloc, &words) == Ok(run_with(options)));
    }
    Ok(())
}

#[test]
fn words_mean_a_command(rt: HostRuntime) -> Result<(), Fail> {
    let alloc = rt.alloc();
    let shown = Command::Run {
        edges: "e",
        grammar: "g",
        options: DEFAULTS,
        show: Some("-a"),
    };
    let from_0 = Command::Query {
        label: "-a",
        from: 0,
        to: None,
    };
    let to_0 = Command::Query {
        label: "S",
        from: 1,
        to: Some(0),
    };
    let rows: [(&[&str], Command<'_>); 6] = [
        (&["run", "e", "g", "--show=-a"], shown),
        (&["query", "--", "-a", "0"], from_0),
        (&["query", "S", "1", "0"], to_0),
        (&["dump"], Command::Dump),
        (&["parts"], Command::Parts),
        (&["parts", "--"], Command::Parts),
    ];
    for (row, command) in rows {
        let words = word_list(alloc, row)?;
        assert!(rt; read_command(alloc, &words) == Ok(command));
    }
    Ok(())
}
