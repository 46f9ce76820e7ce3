//! The normal form of a grammar.
ghost use Rattle.std.specs.Prelude.{◌≡◌, ◌↔◌, ℕ, ◌+◌, ◌<◌, ◌≤◌, All, Contains, IfOk, OnOk, sum_by};
ghost use Rattle.graph_words.specs.declared.types.Vertex.{Vertex as AVertex};
ghost use Rattle.graph_words.specs.declared.types.LabelId.{LabelId as ALabel};
ghost use Rattle.graph_words.specs.Reach.{Graph, IsGraph, Reach};
ghost use Rattle.normal_law.specs.Closure.{IsNamed, IsLabelOf, IsUp, IsEmpty, Closure};
ghost use Rattle.normal_law.specs.Closed.{Joins};
ghost use Rattle.normal_law.specs.Fresh.{fresh_of};
ghost use Rattle.normal_law.specs.NormalForm.{normal_form};
ghost use Rattle.normal_form.specs.Grammar.{IsGrammar};
ghost use Rattle.normal_form.specs.Rows.{AreLabelsAscending};

use crate::above::above_rows;
use crate::apart::{FIRST_FRESH, named_labels, normal_lists};
use crate::empties::{named_empties, with_fresh};
use crate::grammar::Grammar;
use crate::joins::{JoinTable, table_of};
use crate::label_row::LabelRow;
use graph_words::{LabelId, Word};
use std::alloc::{AllocError, Global};
use std::marker::Model;

/// The normal form of a grammar: each rule with more than two labels on the right is taken apart into rules of two,
/// by fresh labels that stand for the rest of its right side. Rules of one label and empty rules stay, as the labels
/// above each label and the labels that derive the empty word (the binary normal form of Lange and Leiß,
/// "To CNF or not to CNF?", 2009).
///
/// Contracts see it as the grammar's rules: what each call answers is stated over `normal_form` of these.
#[derive(Drop)]
pub struct Normal {
    grammar: Grammar,
    /// The label of each number below 1,000.
    named: Vec<LabelId>,
    /// What each fresh label stands for.
    fresh: Vec<Word>,
    /// The labels above each label, by its number.
    above: Vec<LabelRow>,
    joins: JoinTable,
    empties: LabelRow,
}

impl Model for Normal {
    ghost use Rattle.std.specs.Prelude.{List};
    ghost use Rattle.graph_words.specs.declared.types.Rule.{Rule};

    ghost Value = { List Rule };

    ghost use Rattle.normal_form.specs.Parts.{AreParts};

    ghost view = { λ n. n.grammar };

    ghost invariant = { λ n. AreParts n.grammar n.named.items n.fresh.items n.above.items n.joins n.empties };
}

/// The normal form of a grammar. Want of memory is its only error.
pub fn normalise(alloc: Global, grammar: &Grammar) -> Result<Normal, AllocError>
    ensures { IfOk result (λ n. n ≡ grammar.now) }
{
    let rules = grammar.rules();
    let lists = normal_lists(alloc, rules)?;
    let labels = FIRST_FRESH as usize + lists.fresh.len();
    let above = above_rows(alloc, rules, labels)?;
    let joins = table_of(alloc, &lists.pairs, &above, FIRST_FRESH as usize)?;
    let found = named_empties(alloc, rules)?;
    let empties = with_fresh(alloc, &found, &lists.fresh)?;
    Ok(Normal {
        grammar: grammar.copy(alloc)?,
        named: named_labels(alloc)?,
        fresh: lists.fresh,
        above,
        joins,
        empties,
    })
}

impl Normal {
    /// The labels that a label b and a label c join to, ascending: every label above A, for each rule `A b c` of the
    /// normal form. It is the empty list where no rule has b and c on its right, whatever labels they are.
    /// One look by number and one binary search in the row of b, which has an entry for each c that follows it.
    pub fn pair(&self, b: LabelId, c: LabelId) -> &[LabelId]
        ensures ascending { AreLabelsAscending result.now }
        ensures each { (a : ALabel) → Contains result.now a ↔ Joins (normal_form self.now) b c a }
    {
        self.joins.labels_of(b, c)
    }

    /// Adds to the list each label that joins to some label behind b, so that a search for joins need look for these
    /// second labels alone.
    pub fn seconds(&self, b: LabelId, out: &mut Vec<LabelId>) -> Result<(), AllocError>
        ensures { OnOk result ((c a : ALabel) → Joins (normal_form self.now) b c a → Contains out.new.items c) }
    {
        self.joins.seconds(b, out)?;
        Ok(())
    }

    /// The labels above a label, ascending: the least list with b that holds A wherever it holds B and `A B` is a rule.
    /// The label is below 1,000 or one of the fresh ones.
    pub fn up(&self, b: LabelId) -> &[LabelId]
        requires { b.0 < 1000 + (normal_form self.now).fresh }
        ensures ascending { AreLabelsAscending result.now }
        ensures each { (a : ALabel) → Contains result.now a ↔ IsUp self.now b a }
    {
        self.above[b.0 as usize].as_slice()
    }

    /// The labels, named or fresh, that stand for words which yield the empty word, ascending.
    pub fn empties(&self) -> &[LabelId]
        ensures ascending { AreLabelsAscending result.now }
        ensures each { (a : ALabel) → Contains result.now a ↔ IsEmpty (normal_form self.now) a }
    {
        self.empties.as_slice()
    }

    /// How many fresh labels there are: for each rule two less than it has labels on the right, and none where these
    /// are at most two. They are numbered from 1,000, rule after rule, and those of a rule by their suffixes, the longest first.
    pub fn fresh(&self) -> usize
        ensures fresh { result ≡ (normal_form self.now).fresh }
        ensures count { result ≡ sum_by fresh_of self.now }
        ensures few { result ≤ 62000 }
    {
        self.fresh.len()
    }

    /// What a label stands for: a named label for itself, and a fresh one for its suffix of a right side.
    /// The label is below 1,000 or one of the fresh ones.
    pub fn stands(&self, l: LabelId) -> &[LabelId]
        requires { l.0 < 1000 + (normal_form self.now).fresh }
        ensures { result.now ≡ (normal_form self.now).stands l }
    {
        if l.0 < FIRST_FRESH {
            let at = l.0 as usize;
            return &self.named[at..at + 1];
        }
        self.fresh[(l.0 - FIRST_FRESH) as usize].as_slice()
    }

    /// The rules that it is the normal form of are within the limits of a grammar.
    pub fn limits(&self)
        ensures { IsGrammar self.now }
    {
        let _ = &self.grammar;
    }

    /// The law of the normal form: over each graph whose labels are below 1,000, its closure has an edge exactly where
    /// some path spells a word that the edge's label stands for, by the grammar's rules as they were written.
    pub fn closure_is_reach(&self)
        ensures { (g : Graph) (u v : AVertex) (l : ALabel) → IsGraph g → All (λ e. IsNamed e.label) g.edges
            → IsLabelOf (normal_form self.now) l → (Closure (normal_form self.now) g u l v
            ↔ Reach g self.now u ((normal_form self.now).stands l) v) }
    {
        let _ = &self.grammar;
    }
}
