//! The rules of a grammar, within its limits.
ghost use Rattle.std.specs.Prelude.{◌≡◌, ◌↔◌, All, IsTrue, IfOk};
ghost use Rattle.normal_law.specs.Closure.{IsNamed};
ghost use Rattle.normal_form.specs.Grammar.{IsGrammar, IsWithin};

use graph_words::{LabelId, Rule, Word};
use std::alloc::{AllocError, Global};
use std::marker::Model;

/// The rules of a grammar: at most 1,000, each with at most 64 labels on the right, and all labels below 1,000.
#[derive(Drop)]
pub struct Grammar {
    rules: Vec<Rule>,
}

impl Model for Grammar {
    ghost use Rattle.std.specs.Prelude.{List};
    ghost use Rattle.graph_words.specs.declared.types.Rule.{Rule};
    ghost use Rattle.normal_form.specs.Grammar.{IsGrammar};

    ghost Value = { List Rule };

    ghost view = { λ g. g.rules.items };

    ghost invariant = { λ g. IsGrammar g.rules.items };
}

impl Grammar {
    /// The grammar of these rules, which are within the limits.
    pub fn from_rules(rules: Vec<Rule>) -> Self
        requires { IsGrammar rules.items }
        ensures { result ≡ rules.items }
    {
        Grammar { rules }
    }

    /// The rules, in order, and that they are within the limits.
    pub fn rules(&self) -> &[Rule]
        ensures value { result.now ≡ self.now }
        ensures limits { IsGrammar result.now }
    {
        self.rules.as_slice()
    }

    /// An equal grammar.
    pub fn copy(&self, alloc: Global) -> Result<Self, AllocError>
        ensures { IfOk result (λ g. g ≡ self.now) }
    {
        let rules = copy_rules(alloc, self.rules())?;
        Ok(Grammar { rules })
    }
}

/// A copy of the rules.
fn copy_rules(alloc: Global, rules: &[Rule]) -> Result<Vec<Rule>, AllocError>
    ensures { IfOk result (λ copy. copy.items ≡ rules.now) }
{
    let mut copy = Vec::new(alloc);
    for rule in rules {
        copy.push(copy_rule(alloc, rule)?)?;
    }
    Ok(copy)
}

fn copy_rule(alloc: Global, rule: &Rule) -> Result<Rule, AllocError>
    ensures { IfOk result (λ copy. copy ≡ rule.now) }
{
    Ok(Rule {
        left: rule.left,
        right: Word::of(alloc, rule.right.as_slice())?,
    })
}

/// Whether the rules are within the limits of a grammar: at most 1,000, each with at most 64 labels on the right,
/// and all labels below 1,000.
pub fn is_grammar(rules: &[Rule]) -> bool
    ensures { IsTrue result ↔ IsGrammar rules.now }
{
    rules.len() <= 1000 && are_within(rules)
}

fn are_within(rules: &[Rule]) -> bool
    ensures { IsTrue result ↔ All IsWithin rules.now }
{
    for rule in rules {
        if !is_within(rule) {
            return false;
        }
    }
    true
}

fn is_within(rule: &Rule) -> bool
    ensures { IsTrue result ↔ IsWithin rule.now }
{
    let right = rule.right.as_slice();
    right.len() <= 64 && rule.left.0 < 1000 && are_named(right)
}

fn are_named(labels: &[LabelId]) -> bool
    ensures { IsTrue result ↔ All IsNamed labels.now }
{
    labels.iter().all(|label| label.0 < 1000)
}
