//! Right sides are taken apart into rules of two labels.
ghost use Rattle.std.specs.Prelude.{◌≡◌, ◌++◌, ◌+◌, ◌<◌, ◌≤◌, length, All, OnOk, IfOk};
ghost use Rattle.normal_law.specs.NormalForm.{suffixes, fresh_words, pairs_from, all_pairs};
ghost use Rattle.normal_form.specs.Parts.{AreNamed};

use graph_words::{LabelId, PairRule, Rule, Word};
use std::alloc::{AllocError, Global};

/// Fresh labels are numbered from here. Named ones are below.
pub(crate) const FIRST_FRESH: u16 = 1000;

/// The rules of two labels of a normal form, and what its fresh labels stand for.
#[derive(Drop)]
pub(crate) struct NormalLists {
    pub(crate) pairs: Vec<PairRule>,
    pub(crate) fresh: Vec<Word>,
}

/// Takes a rule apart into rules of two labels.
fn take_apart(
    alloc: Global,
    pairs: &mut Vec<PairRule>,
    fresh: &mut Vec<Word>,
    rule: &Rule,
) -> Result<(), AllocError>
    requires { length fresh.old.items + length rule.now.right < 64500 }
    ensures pairs { OnOk result (pairs.new.items ≡ pairs.old.items ++ pairs_from (length fresh.old.items) rule.now.left rule.now.right) }
    ensures fresh { OnOk result (fresh.new.items ≡ fresh.old.items ++ suffixes rule.now.right) }
{
    let mut left = rule.left;
    let mut rest = rule.right.as_slice();
    while rest.len() > 2 {
        let next = LabelId(FIRST_FRESH + fresh.len() as u16);
        pairs.push(PairRule {
            left,
            first: rest[0],
            second: next,
        })?;
        rest = &rest[1..];
        fresh.push(Word::of(alloc, rest)?)?;
        left = next;
    }
    if rest.len() == 2 {
        pairs.push(PairRule {
            left,
            first: rest[0],
            second: rest[1],
        })?;
    }
    Ok(())
}

/// The normal form of a grammar's rules, as lists.
pub(crate) fn normal_lists(alloc: Global, rules: &[Rule]) -> Result<NormalLists, AllocError>
    requires few { length rules.now ≤ 1000 }
    requires short { All (λ r. length r.right ≤ 64) rules.now }
    ensures pairs { IfOk result (λ n. n.pairs.items ≡ all_pairs 0 rules.now) }
    ensures fresh { IfOk result (λ n. n.fresh.items ≡ fresh_words rules.now) }
{
    let mut pairs = Vec::new(alloc);
    let mut fresh = Vec::new(alloc);
    for rule in rules {
        take_apart(alloc, &mut pairs, &mut fresh, rule)?;
    }
    Ok(NormalLists { pairs, fresh })
}

/// The labels below 1,000.
pub(crate) fn named_labels(alloc: Global) -> Result<Vec<LabelId>, AllocError>
    ensures { IfOk result (λ named. AreNamed named.items) }
{
    let mut named = Vec::new(alloc);
    for number in 0..FIRST_FRESH {
        named.push(LabelId(number))?;
    }
    Ok(named)
}
