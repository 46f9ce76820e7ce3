//! The graphs of C files, printed.
use crate::fixtures::{prints, two_files, word_list};
use disk_model::{MemDisk, NoDisk};
use graspan_top::{Status, graspan};
use io_edge::MemSink;
use std::alloc::{AllocError, Global};
use std::test::Fail;

/// Two pointers to one variable.
const POINTERS: &[u8] = b"int x; int *p; int *q; void f() { p = &x; q = p; *q = 1; }";

/// A null that flows on.
const NULLS: &[u8] = b"int *p; int *q; int *r; void f() { p = NULL; q = p; }";

/// The graph of the pointers.
const PRINTED: &[u8] =
    b"# 0 x\n# 1 p\n# 2 q\n# 3 &x\n# 4 *q\n# 5 number\n3 0 d\n0 3 -d\n3 1 a\n1 3 -a\n1 2 a\n2 1 -a\n2 4 d\n4 2 -d\n5 4 a\n4 5 -a\n";

// Worked out by hand.
#[test]
fn a_c_file_is_a_graph_or_refused_at_its_first_fault(rt: HostRuntime) -> Result<(), Fail> {
    let alloc = rt.alloc();
    let alias = ["emit", "alias", "e"].as_slice();
    let null = ["emit", "null", "e"].as_slice();
    for (text, words, printed, code) in [
        (POINTERS, alias, PRINTED, 0),
        (
            NULLS,
            null,
            b"# 0 p\n# 1 q\n# 2 r\n# 3 NULL\n3 0 n\n0 3 -n\n0 1 a\n1 0 -a\n".as_slice(),
            0,
        ),
        (
            NULLS,
            alias,
            b"# 0 p\n# 1 q\n# 2 r\n# 3 NULL\n0 1 a\n1 0 -a\n",
            0,
        ),
        (b"", alias, b"", 0),
        (b"int x;\n@", alias, b"fault input source 2 BadByte\n", 2),
        (
            b"int x;\n\n /* int y;",
            alias,
            b"fault input source 3 OpenComment\n",
            2,
        ),
        (b"int\nx", alias, b"fault input source 2 Unexpected\n", 2),
        (
            b"int x;\nint x;",
            null,
            b"fault input source 2 Repeated\n",
            2,
        ),
        (
            b"void f() {\n x = 1; }",
            null,
            b"fault input source 2 Undeclared\n",
            2,
        ),
        (
            b"int g(int a) { }\nvoid f() { g(); }",
            alias,
            b"fault input source 2 WrongArguments\n",
            2,
        ),
        (
            b"void g() { }\nint f() { return g(); }",
            alias,
            b"fault input source 2 NoValue\n",
            2,
        ),
        (b"", ["emit", "c", "e"].as_slice(), b"fault words\n", 1),
        (b"", ["emit", "alias", "h"].as_slice(), b"fault read\n", 4),
    ] {
        let mut disk = MemDisk::new(alloc)?;
        assert!(rt; prints(alloc, &mut disk, text, b"", words, (printed, code))?);
    }
    Ok(())
}

/// A pointer that is assigned to itself 2,000 times. Its graph has 26,006 bytes, which are two writes.
fn many_assignments(alloc: Global) -> Result<Vec<u8>, AllocError> {
    let mut text = b"int *p; void f() {".as_slice().to_vec(alloc)?;
    for _ in 0..2000 {
        text.extend_from_slice(b" p = p;")?;
    }
    text.push(b'}')?;
    Ok(text)
}

// It makes no call of the disk, so a disk that always fails serves as well.
#[test]
fn a_write_that_fails_leaves_a_front_of_the_graph(rt: HostRuntime) -> Result<(), Fail> {
    let alloc = rt.alloc();
    let words = word_list(alloc, &["emit", "alias", "e"])?;
    let mut inputs = two_files(alloc, many_assignments(alloc)?.as_slice(), b"")?;
    let mut out = MemSink::new(alloc);
    out.fail_calls(vec![in alloc; 1]?);
    let mut disk = NoDisk::new();
    let status = graspan(alloc, &words, &mut inputs, &mut disk, &mut out);
    assert_eq!(rt; status, Status::WriteFault);
    assert!(rt; out.bytes().starts_with(b"# 0 p\n0 0 a\n0 0 -a\n0 0 a\n"));
    assert!(rt; out.bytes().len() < 26_006);
    Ok(())
}

/// One program for each form that makes a vertex or an edge, and its graph, worked out by hand from docs/FORMATS.md.
const FORMS: [(&[u8], &[u8]); 15] = [
    (
        b"int *p; int *q; void f() { p = q; }",
        b"# 0 p\n# 1 q\n1 0 a\n0 1 -a\n",
    ),
    // what an address points to is its variable
    (
        b"int x; int y; void f() { y = *(&x); }",
        b"# 0 x\n# 1 y\n# 2 &x\n2 0 d\n0 2 -d\n0 1 a\n1 0 -a\n",
    ),
    // and the address of what a pointer points to is the pointer
    (
        b"int *p; int *q; void f() { q = &*p; }",
        b"# 0 p\n# 1 q\n# 2 *p\n0 2 d\n2 0 -d\n0 1 a\n1 0 -a\n",
    ),
    // each is made once for a vertex, and an edge that is made twice stands twice
    (
        b"int *p; void f() { *p = *p; }",
        b"# 0 p\n# 1 *p\n0 1 d\n1 0 -d\n1 1 a\n1 1 -a\n",
    ),
    (
        b"int x; int *p; void f() { p = &x; p = &x; }",
        b"# 0 x\n# 1 p\n# 2 &x\n2 0 d\n0 2 -d\n2 1 a\n1 2 -a\n2 1 a\n1 2 -a\n",
    ),
    (
        b"int **p; void f() { **p = 1; }",
        b"# 0 p\n# 1 *p\n# 2 **p\n# 3 number\n0 1 d\n1 0 -d\n1 2 d\n2 1 -d\n3 2 a\n2 3 -a\n",
    ),
    // a number is a new vertex each time
    (
        b"int x = 1; void f() { x = ((1)); }",
        b"# 0 x\n# 1 number\n# 2 number\n1 0 a\n0 1 -a\n2 0 a\n0 2 -a\n",
    ),
    (
        b"int x; void f() { x = x + 1 < 2; }",
        b"# 0 x\n# 1 number\n# 2 op\n# 3 number\n# 4 op\n4 0 a\n0 4 -a\n",
    ),
    // parameters and results of functions come first
    (
        b"int x; int g(int n) { return n; } void f() { x = g(2); }",
        b"# 0 n\n# 1 return g\n# 2 x\n# 3 number\n# 4 call g\n0 1 a\n1 0 -a\n3 0 a\n0 3 -a\n1 4 a\n4 1 -a\n4 2 a\n2 4 -a\n",
    ),
    (
        b"void f() { h(1); } void h(int n) { }",
        b"# 0 n\n# 1 number\n1 0 a\n0 1 -a\n",
    ),
    (
        b"int *p = malloc(4);",
        b"# 0 p\n# 1 number\n# 2 malloc\n2 0 a\n0 2 -a\n",
    ),
    (b"void *f() { return; }", b"# 0 return f\n"),
    (b"void *f() { return (NULL); }", b"# 0 return f\n# 1 NULL\n"),
    (
        b"int x; void f() { if (x == 1) x = 2; else while (x) ; }",
        b"# 0 x\n# 1 number\n# 2 op\n# 3 number\n3 0 a\n0 3 -a\n",
    ),
    // an inner name hides an outer one to the end of its block
    (
        b"int x; void f() { int x; { int x; x = 1; } x = 2; }",
        b"# 0 x\n# 1 x\n# 2 x\n# 3 number\n# 4 number\n3 2 a\n2 3 -a\n4 1 a\n1 4 -a\n",
    ),
];

#[test]
fn each_form_makes_its_vertices_and_edges(rt: HostRuntime) -> Result<(), Fail> {
    let alloc = rt.alloc();
    for (text, printed) in FORMS {
        let mut disk = MemDisk::new(alloc)?;
        assert!(rt;
            prints(
                alloc,
                &mut disk,
                text,
                b"",
                &["emit", "alias", "e"],
                (printed, 0)
            )?
        );
    }
    Ok(())
}

// Each on the line of the word that is refused, and in the order of the walk.
#[test]
fn a_program_is_refused_where_its_walk_comes_first(rt: HostRuntime) -> Result<(), Fail> {
    let alloc = rt.alloc();
    for (text, printed) in [
        (
            b"void f() { }\nvoid f() { }".as_slice(),
            b"fault input source 2 Repeated\n".as_slice(),
        ),
        (
            b"void f(int a,\nint a) { }",
            b"fault input source 2 Repeated\n",
        ),
        (
            b"void f(int a) {\n{ int a; }\nint a; }",
            b"fault input source 3 Repeated\n",
        ),
        (b"int x =\ny;\nint y;", b"fault input source 2 Undeclared\n"),
        (
            b"void f() {\n{ int y; }\ny = 1; }",
            b"fault input source 3 Undeclared\n",
        ),
        (b"void f() {\ng(); }", b"fault input source 2 Undeclared\n"),
        // the arguments are counted before they are walked
        (
            b"void g() { }\nvoid f() {\ng(\ny); }",
            b"fault input source 3 WrongArguments\n",
        ),
        // a call without a value is refused behind its arguments, and a return before its value
        (
            b"void g(int a) { }\nint x =\ng(\ny);",
            b"fault input source 4 Undeclared\n",
        ),
        (
            b"int y; void g(int a) { }\nint x =\ng(\ny);",
            b"fault input source 3 NoValue\n",
        ),
        (
            b"void f() {\nreturn\ny; }",
            b"fault input source 2 NoValue\n",
        ),
    ] {
        let mut disk = MemDisk::new(alloc)?;
        assert!(rt;
            prints(
                alloc,
                &mut disk,
                text,
                b"",
                &["emit", "null", "e"],
                (printed, 2)
            )?
        );
    }
    Ok(())
}
