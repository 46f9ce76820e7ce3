//! Each status and what is said of it, as a table.
use disk_model::FormKind;
use hints::{Fault, Phase, Seen, budget_line, progress_line, sentence};
use io_edge::{InputFile, InputKind, WordList};
use std::alloc::{AllocError, Global};
use std::io::ErrorKind;
use std::process::Abort;
use std::test::Fail;

fn words_of(alloc: Global, text: &str) -> Result<WordList, AllocError> {
    let mut words = WordList::new(alloc);
    for word in text.split(' ') {
        words.push(word)?;
    }
    Ok(words)
}

// What is said of a fault.
fn said(rt: &impl Abort, fault: Fault<'_>, wanted: &str) {
    let line = sentence(fault);
    assert_eq!(rt; line.as_str(), wanted);
}

// What is said of words behind the folder 'store', in each row of a table.
fn words_said(
    rt: &(impl Abort + AllocGlobal),
    rows: &[(&'static str, &'static str)],
) -> Result<(), AllocError> {
    for row in rows {
        let words = words_of(rt.alloc(), row.0)?;
        let folder = "store";
        let fault = Fault::Words {
            folder,
            words: &words,
        };
        said(rt, fault, row.1);
    }
    Ok(())
}

const UNKNOWN_OPTIONS: [(&str, &str); 6] = [
    (
        "run e g --worker 3",
        "graspan: there is no option --worker; did you mean --workers? (graspan --help)",
    ),
    (
        "run e g --worker=3",
        "graspan: there is no option --worker; did you mean --workers? (graspan --help)",
    ),
    (
        "run e g --colour",
        "graspan: there is no option --colour (graspan --help)",
    ),
    (
        "run e g -x",
        "graspan: there is no option -x; behind -- each word is a plain one (graspan --help)",
    ),
    (
        "run e g --show M --show=V",
        "graspan: --show is given more than once (graspan --help)",
    ),
    (
        "query -a 1",
        "graspan: query has no options; a label that begins with '-' stands behind --, as in query -- -a 0 (graspan --help)",
    ),
];

const VALUES_OF_OPTIONS: [(&str, &str); 5] = [
    (
        "run e g --workers 65",
        "graspan: --workers wants a number from 1 to 64, and '65' is none (graspan --help)",
    ),
    (
        "run e g --budget=0",
        "graspan: --budget wants a number from 1 to 4294967295, and '0' is none (graspan --help)",
    ),
    (
        "run e g --show",
        "graspan: --show wants a value; one that begins with '-' is written --show=VALUE (graspan --help)",
    ),
    (
        "run e g --show --budget 9",
        "graspan: --show wants a value; one that begins with '-' is written --show=VALUE (graspan --help)",
    ),
    (
        "run e g --workers 3 --part-edges=0009 --budget 4294967295 --show -- -a",
        "graspan: --show wants a value; one that begins with '-' is written --show=VALUE (graspan --help)",
    ),
];

const PLAIN_WORDS: [(&str, &str); 8] = [
    (
        "run e",
        "graspan: run wants an edge file and a grammar file; 1 such word stands there (graspan --help)",
    ),
    (
        "run e g h --workers 3",
        "graspan: run wants an edge file and a grammar file; 3 such words stand there (graspan --help)",
    ),
    (
        "run  e g",
        "graspan: a word of the command is empty (graspan --help)",
    ),
    (
        "query M",
        "graspan: query wants LABEL U or LABEL U V; 1 such word stands there (graspan --help)",
    ),
    (
        "query M x1",
        "graspan: 'x1' is not a vertex (a number from 0 to 16777215)",
    ),
    (
        "query M 1 16777216",
        "graspan: '16777216' is not a vertex (a number from 0 to 16777215)",
    ),
    (
        "parts now",
        "graspan: parts takes nothing more, and 'now' stands behind it (graspan --help)",
    ),
    (
        "dump -- x",
        "graspan: dump takes nothing more, and 'x' stands behind it (graspan --help)",
    ),
];

const UNKNOWN_COMMANDS: [(&str, &str); 3] = [
    (
        "rnu e g",
        "graspan: there is no command 'rnu'; did you mean run? (graspan --help)",
    ),
    (
        "que M 1",
        "graspan: there is no command 'que'; did you mean query? (graspan --help)",
    ),
    (
        "close",
        "graspan: there is no command 'close' (graspan --help)",
    ),
];

// Words that are whole are not said to be wrong: no false cause is named.
const WORDS_WITH_A_READING: [(&str, &str); 5] = [
    (
        "run --show M e g",
        "graspan: these words mean no command (graspan --help)",
    ),
    (
        "run --workers=64 -- -e -g",
        "graspan: these words mean no command (graspan --help)",
    ),
    (
        "query M 10",
        "graspan: these words mean no command (graspan --help)",
    ),
    (
        "query -- -a 0 16777215",
        "graspan: these words mean no command (graspan --help)",
    ),
    (
        "dump",
        "graspan: these words mean no command (graspan --help)",
    ),
];

#[test]
fn words_without_a_reading_say_which_word(rt: HostRuntime) -> Result<(), Fail> {
    words_said(&rt, &UNKNOWN_OPTIONS)?;
    words_said(&rt, &VALUES_OF_OPTIONS)?;
    words_said(&rt, &PLAIN_WORDS)?;
    words_said(&rt, &UNKNOWN_COMMANDS)?;
    words_said(&rt, &WORDS_WITH_A_READING)?;
    Ok(())
}

// What is said of another folder, or of none.
#[test]
fn the_folder_comes_first(rt: HostRuntime) -> Result<(), Fail> {
    let none = WordList::new(rt.alloc());
    let two = words_of(rt.alloc(), "e g")?;
    let rows: [(&str, &WordList, &str); 5] = [
        (
            "",
            &none,
            "graspan: the folder of the store and a command are missing, as in: graspan STORE run EDGES GRAMMAR (graspan --help)",
        ),
        (
            "store",
            &none,
            "graspan: what to do with the store store is missing: run, query, emit, dump or parts (graspan --help)",
        ),
        (
            "--hepl",
            &none,
            "graspan: there is no option --hepl (graspan --help)",
        ),
        (
            "--worker",
            &two,
            "graspan: there is no option --worker (graspan --help)",
        ),
        (
            "run",
            &two,
            "graspan: the folder of the store stands first, as in: graspan STORE run (graspan --help)",
        ),
    ];
    for (folder, words, wanted) in rows {
        said(&rt, Fault::Words { folder, words }, wanted);
    }
    Ok(())
}

const EDGE_LINES: [(InputKind, &str, &str); 7] = [
    (
        InputKind::BadSource,
        "x1 2 a",
        "graspan: x:2: 'x1' is not a vertex (a number from 0 to 16777215)",
    ),
    (
        InputKind::BadSource,
        "",
        "graspan: x:2: the first word is not a vertex (a number from 0 to 16777215)",
    ),
    (
        InputKind::BadDestination,
        " 2\t16777216 a",
        "graspan: x:2: '16777216' is not a vertex (a number from 0 to 16777215)",
    ),
    (
        InputKind::WrongCount,
        "1 2",
        "graspan: x:2: '1 2' has 2 words, and an edge has three: SOURCE DESTINATION LABEL",
    ),
    (
        InputKind::WrongCount,
        "1",
        "graspan: x:2: '1' has 1 word, and an edge has three: SOURCE DESTINATION LABEL",
    ),
    (
        InputKind::BadLabel,
        "1 2 \x1b[31m",
        "graspan: x:2: '\\x1b[31m' is not a label (1 to 255 letters, digits or signs of ASCII)",
    ),
    (
        InputKind::LineTooLong,
        "",
        "graspan: x:2: the line has more than 4096 bytes",
    ),
];

const GRAMMAR_LINES: [(InputKind, &str, &str); 5] = [
    (
        InputKind::BadLabel,
        "A B \u{e4}",
        "graspan: x:2: '\\xc3\\xa4' is not a label (1 to 255 letters, digits or signs of ASCII)",
    ),
    (
        InputKind::TooManyRules,
        "",
        "graspan: x:2: this is the 1001st rule, and a grammar has at most 1000",
    ),
    (
        InputKind::RightTooLong,
        "",
        "graspan: x:2: the rule has more than 64 labels on its right side",
    ),
    (
        InputKind::TooManyLabels,
        "",
        "graspan: x:2: its label would be the 1001st; both files have at most 1000",
    ),
    (
        InputKind::TooLong,
        "",
        "graspan: x:2: the file is too long: a grammar has at most 16777216 bytes",
    ),
];

// What is said of line 2 of the file 'x', in each row of a table.
fn lines_said(rt: &impl Abort, file: InputFile, rows: &[(InputKind, &'static str, &'static str)]) {
    for row in rows {
        let fault = Fault::Input {
            file,
            name: "x",
            line: 2,
            kind: row.0,
            text: row.1.as_bytes(),
        };
        said(rt, fault, row.2);
    }
}

#[test]
fn a_line_is_named_with_its_word(rt: HostRuntime) {
    lines_said(&rt, InputFile::Edges, &EDGE_LINES);
    lines_said(&rt, InputFile::Grammar, &GRAMMAR_LINES);
}

// A text is shortened to 60 bytes.
#[test]
fn a_long_word_is_shortened(rt: HostRuntime) {
    let text = [b'z'; 100];
    let shown = "zzzzzzzzzzzzzzzzzzzzzzzzzzzzzzzzzzzzzzzzzzzzzzzzzzzzzzzzzzzz";
    assert_eq!(rt; shown.len(), 60);
    let line = sentence(Fault::Input {
        file: InputFile::Edges,
        name: "e",
        line: 1,
        kind: InputKind::BadSource,
        text: &text,
    });
    assert!(rt; line.as_str().starts_with("graspan: e:1: 'zzz"));
    assert!(rt;
        line.as_str()
            .ends_with("zzz..' is not a vertex (a number from 0 to 16777215)")
    );
    assert_eq!(rt;
        line.as_str().len(),
        60 + "graspan: e:1: '..' is not a vertex (a number from 0 to 16777215)".len()
    );
}

// What is said of files that can't be read, or are others.
#[test]
fn files_say_their_names(rt: HostRuntime) {
    said(
        &rt,
        Fault::Read {
            name: "notes.txt",
            reason: Some(ErrorKind::NotFound),
        },
        "graspan: cannot read notes.txt: no such file or folder",
    );
    said(
        &rt,
        Fault::Read {
            name: "",
            reason: None,
        },
        "graspan: cannot read one of the two files",
    );
    said(
        &rt,
        Fault::Other {
            folder: "store",
            file: InputFile::Edges,
            name: "x.edges",
            place: 4,
        },
        "graspan: x.edges: the store in store was made of another edge file, which differs first at byte 4; take another folder, or the file that it was made of",
    );
}

// What is said of a store, and what to do with it.
#[test]
fn a_store_says_what_to_do(rt: HostRuntime) {
    let folder = "store";
    said(
        &rt,
        Fault::Store {
            folder,
            file: 5,
            place: 78,
            kind: FormKind::Extra,
        },
        "graspan: store/g0005 is damaged at byte 78: bytes stand behind its end; no run mends it, take an empty folder",
    );
    said(
        &rt,
        Fault::Unfinished { folder },
        "graspan: store: a run was stopped here, or runs now; run it again with the same two files, and it goes on",
    );
    said(
        &rt,
        Fault::NoStore { folder },
        "graspan: store: nothing was imported here, or not to its end; first close a graph: graspan store run EDGES GRAMMAR",
    );
}

const LOCKED: [(Option<u32>, &str); 2] = [
    (
        Some(4711),
        "graspan: store: process 4711 runs here, and a store takes one run at a time; run again when it has ended",
    ),
    (
        None,
        "graspan: store: another process runs here, and a store takes one run at a time; run again when it has ended",
    ),
];

// What is said where the system refused something.
#[test]
fn the_system_says_why(rt: HostRuntime) {
    said(
        &rt,
        Fault::Folder {
            folder: "a/b",
            reason: Some(ErrorKind::NotFound),
        },
        "graspan: cannot make the folder a/b: the folder above it isn't there",
    );
    said(
        &rt,
        Fault::Disk {
            folder: "store",
            reason: Some(ErrorKind::StorageFull),
        },
        "graspan: the folder store can't be read or written: no space is left on the disk; once it can, run again, and it goes on",
    );
    for (process, wanted) in LOCKED {
        said(
            &rt,
            Fault::Locked {
                folder: "store",
                process,
            },
            wanted,
        );
    }
    said(
        &rt,
        Fault::Memory,
        "graspan: memory ran out; run again with more and it goes on, or with a smaller --part-edges in an empty folder",
    );
    said(
        &rt,
        Fault::Output { folder: "store" },
        "graspan: standard output couldn't be written to its end; the store in store is as it should be, so call the command again to print",
    );
}

// What is said of labels and vertices that aren't there.
#[test]
fn what_is_not_known_is_named(rt: HostRuntime) -> Result<(), Fail> {
    let folder = "store";
    let query = words_of(rt.alloc(), "query M 10 11")?;
    said(
        &rt,
        Fault::NotKnown {
            folder,
            words: &query,
        },
        "graspan: store has no label 'M', or no vertex 10 or 11; parts prints how many vertices there are, and they count from 0",
    );
    let run = words_of(rt.alloc(), "run e g --show X")?;
    said(
        &rt,
        Fault::NotKnown {
            folder,
            words: &run,
        },
        "graspan: no edge and no rule has the label 'X' of --show; the store is finished",
    );
    Ok(())
}

fn seen(phase: Phase) -> Seen {
    Seen {
        phase,
        read: 18_200_000,
        total: 40_500_000,
        written: 0,
        steps: 34,
        edges: 12_100_000,
        pairs: 256,
        left: 31,
        seconds: 12,
    }
}

#[test]
fn the_line_of_progress(rt: HostRuntime) {
    assert_eq!(rt;
        progress_line(&seen(Phase::Import)).as_str(),
        "import 44 %  18.2 MB of 40.5"
    );
    let mut closing = seen(Phase::Closing);
    closing.written = 204_000_000;
    assert_eq!(rt;
        progress_line(&closing).as_str(),
        "closing  step 34  12.1 M edges, 31 of 256 pairs left  204 MB written  00:12"
    );
    closing.edges = 999_999;
    closing.seconds = 3_661;
    assert_eq!(rt;
        progress_line(&closing).as_str(),
        "closing  step 34  999999 edges, 31 of 256 pairs left  204 MB written  1:01:01"
    );
    let mut printing = seen(Phase::Printing);
    printing.read = 60;
    printing.total = 100;
    assert_eq!(rt; progress_line(&printing).as_str(), "printing 60 %");
    assert_eq!(rt;
        budget_line(31_000_000, 16_000_000).as_str(),
        "graspan: a step loads up to 31.0 M edges, above the 16000000 of --budget; in an empty folder a smaller --part-edges needs less memory and more time (docs/USAGE.md)"
    );
}
