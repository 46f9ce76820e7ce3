//! Grammar files, and the normal forms of worked examples.
use crate::fixtures::normal_of;
use grammar_norm::{GrammarFault, read_grammar};
use graph_words::LabelId;
use io_edge::InputKind;
use normal_form::Normal;
use std::alloc::Global;
use std::process::Abort;
use std::test::Fail;

#[test]
fn a_rule_has_its_labels_by_number(rt: HostRuntime) {
    let (grammar, table) = read_grammar(rt.alloc(), b"# a rule\nS\r\n\n S\ta  S")
        .ok()
        .expect(&rt, "a good grammar");
    assert_eq!(rt; table.len(), 2);
    assert_eq!(rt; grammar.rules().len(), 2);
    let rule = &grammar.rules()[1];
    assert_eq!(rt; rule.left, LabelId(0));
    assert_eq!(rt; rule.right.as_slice(), [LabelId(1), LabelId(0)].as_slice());
    assert!(rt; grammar.rules()[0].right.as_slice().is_empty());
}

// A text that says its first piece, then the second one so often, and the end of a line.
fn repeated(alloc: Global, front: &[u8], piece: &[u8], times: usize) -> Result<Vec<u8>, Fail> {
    let mut text = front.to_vec(alloc)?;
    for _ in 0..times {
        text.extend_from_slice(piece)?;
    }
    text.push(10)?;
    Ok(text)
}

fn fault_of(alloc: Global, text: &[u8]) -> Option<(u64, InputKind)> {
    match read_grammar(alloc, text) {
        Err(GrammarFault::Text { line, kind }) => Some((line, kind)),
        _ => None,
    }
}

#[test]
fn a_grammar_is_refused_by_its_first_fault(rt: HostRuntime) -> Result<(), Fail> {
    let alloc = rt.alloc();
    for (front, piece, times, fault) in [
        (b"S".as_slice(), b" a".as_slice(), 64, None),
        (b"S", b" a", 65, Some((1, InputKind::RightTooLong))),
        (b"", b"S a\n", 1000, None),
        (b"", b"S a\n", 1001, Some((1001, InputKind::TooManyRules))),
        (b"", b"a", 255, None),
        (b"S a\n\n", b"a", 256, Some((3, InputKind::BadLabel))),
        (b"", b"#", 4096, None),
        (b"", b"#", 4097, Some((1, InputKind::LineTooLong))),
        (
            b"S\nS a ",
            b"\x01\nS \x7f\n",
            1,
            Some((2, InputKind::BadLabel)),
        ),
    ] {
        let text = repeated(alloc, front, piece, times)?;
        assert_eq!(rt; fault_of(alloc, &text), fault);
    }
    Ok(())
}

fn are(labels: &[LabelId], numbers: &[u16]) -> bool {
    labels.len() == numbers.len() && labels.iter().zip(numbers).all(|(l, n)| l.0 == *n)
}

fn stand_for(rt: &impl Abort, normal: &Normal, words: &[(u16, &[u16])]) {
    for (label, word) in words {
        assert!(rt;
            (*label as usize) < 1000 + normal.fresh(),
            "{label} is known"
        );
        assert!(rt;
            are(normal.stands(LabelId(*label)), word),
            "what {label} stands for"
        );
    }
}

fn join(rt: &impl Abort, normal: &Normal, joins: &[(u16, u16, &[u16])]) {
    for (b, c, labels) in joins {
        assert!(rt;
            are(normal.pair(LabelId(*b), LabelId(*c)), labels),
            "{b} with {c}"
        );
    }
}

fn are_above(rt: &impl Abort, normal: &Normal, rows: &[(u16, &[u16])]) {
    for (label, labels) in rows {
        assert!(rt;
            (*label as usize) < 1000 + normal.fresh(),
            "{label} is known"
        );
        assert!(rt; are(normal.up(LabelId(*label)), labels), "above {label}");
    }
}

/// What the fresh labels of `S a b c d e` and `T a b c x y` stand for: S is 0, a to e are 1 to 5, T is 6, x and y are
/// 7 and 8.
const APART: [(u16, &[u16]); 8] = [
    (0, &[0]),
    (8, &[8]),
    (1000, &[2, 3, 4, 5]),
    (1001, &[3, 4, 5]),
    (1002, &[4, 5]),
    (1003, &[2, 3, 7, 8]),
    (1004, &[3, 7, 8]),
    (1005, &[7, 8]),
];

/// The labels that those labels join to in pairs.
const APART_JOINS: [(u16, u16, &[u16]); 9] = [
    (1, 1000, &[0]),
    (1, 1003, &[6]),
    (2, 1001, &[1000]),
    (3, 1005, &[1004]),
    (4, 5, &[1002]),
    (7, 8, &[1005]),
    (1, 2, &[]),
    (5, 4, &[]),
    (60_000, 2, &[]),
];

#[test]
fn two_rules_with_a_common_front_share_no_fresh_label(rt: HostRuntime) -> Result<(), Fail> {
    let rules: [(u16, &[u16]); 2] = [(0, &[1, 2, 3, 4, 5]), (6, &[1, 2, 3, 7, 8])];
    let normal = normal_of(&rt, rt.alloc(), &rules)?;
    assert_eq!(rt; normal.fresh(), 6);
    stand_for(&rt, &normal, &APART);
    join(&rt, &normal, &APART_JOINS);
    are_above(&rt, &normal, &[(0, &[0]), (999, &[999]), (1005, &[1005])]);
    assert!(rt; normal.empties().is_empty());
    Ok(())
}

// The brackets: S is 0, ( is 1 and ) is 2.
#[test]
fn an_empty_rule_makes_its_left_side_an_empty_label(rt: HostRuntime) -> Result<(), Fail> {
    let normal = normal_of(&rt, rt.alloc(), &[(0, &[]), (0, &[1, 0, 2, 0])])?;
    stand_for(&rt, &normal, &[(1000, &[0, 2, 0]), (1001, &[2, 0])]);
    join(
        &rt,
        &normal,
        &[(1, 1000, &[0]), (0, 1001, &[1000]), (2, 0, &[1001])],
    );
    assert!(rt; are(normal.empties(), &[0]));
    Ok(())
}

// A is 0, B is 1, C is 2, d and e are 3 and 4: `A B`, `B A`, `C A`, `A d e`, `B d e`.
#[test]
fn labels_on_a_cycle_are_above_each_other(rt: HostRuntime) -> Result<(), Fail> {
    let rules: [(u16, &[u16]); 5] = [(0, &[1]), (1, &[0]), (2, &[0]), (0, &[3, 4]), (1, &[3, 4])];
    let normal = normal_of(&rt, rt.alloc(), &rules)?;
    are_above(
        &rt,
        &normal,
        &[(0, &[0, 1, 2]), (1, &[0, 1, 2]), (2, &[2]), (3, &[3])],
    );
    join(&rt, &normal, &[(3, 4, &[0, 1, 2]), (4, 3, &[])]);
    Ok(())
}

// S is 0, A to C are 1 to 3, D is 4, d is 5, E is 6: `S A B C`, `A B`, `B`, `C A B`, `D S d`, `E A d B`.
#[test]
fn labels_are_empty_through_others_and_fresh_ones_too(rt: HostRuntime) -> Result<(), Fail> {
    let rules: [(u16, &[u16]); 6] = [
        (0, &[1, 2, 3]),
        (1, &[2]),
        (2, &[]),
        (3, &[1, 2]),
        (4, &[0, 5]),
        (6, &[1, 5, 2]),
    ];
    let normal = normal_of(&rt, rt.alloc(), &rules)?;
    assert!(rt; are(normal.empties(), &[0, 1, 2, 3, 1000]));
    stand_for(&rt, &normal, &[(1000, &[2, 3]), (1001, &[5, 2])]);
    Ok(())
}
