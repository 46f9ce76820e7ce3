//! Words are cut into options and plain words.
ghost use Rattle.std.specs.Prelude.{◌≡◌, ◌<◌, ◌∷◌, ◌++◌, [], ℕ, List, None, Some, IfOk, IfErr, OnOk, length, drop};
ghost use Rattle.command_words.specs.declared.fault.WordsFault.TheVariants.{Words};
ghost use Rattle.command_words.specs.CutWords.{any, value_for, cut_from, cut_end, nothing, whole};
ghost use Rattle.command_words.specs.Words.{given};

use crate::fault::WordsFault;
use crate::kind::{WordKind, is_dashed, word_kind};
use io_edge::WordList;
use std::alloc::{AllocError, Global};
use std::marker::Model;

/// An option that is given, its name without the two '-' before it.
#[derive(Clone, Copy)]
pub(crate) struct Given<'a> {
    pub(crate) name: &'a str,
    pub(crate) value: &'a str,
}

/// Options and plain words, each in the order in which they stand.
#[derive(Drop)]
pub(crate) struct CutWords<'a> {
    pub(crate) options: Vec<Given<'a>>,
    pub(crate) plain: Vec<&'a str>,
}

impl<'a> Model for CutWords<'a> {
    ghost use Rattle.std.specs.Prelude.{map};
    ghost use Rattle.command_words.specs.CutWords.{Cut, given_said};

    ghost Value = { Cut };

    ghost view = { λ c. record { options = map given_said c.options.items; plain = map (λ w. w.now) c.plain.items } };
}

/// What the next word may be.
#[derive(Clone, Copy)]
pub(crate) enum Next<'a> {
    /// An option or a plain word.
    Any,
    /// The value of the option with this name.
    Value(&'a str),
    /// A plain word, whatever it begins with.
    OnlyPlain,
}

/// What is cut so far, and what may be next.
#[derive(Drop)]
struct Cutter<'a> {
    cut: CutWords<'a>,
    next: Next<'a>,
}

impl<'a> Model for Cutter<'a> {
    ghost use Rattle.command_words.specs.CutWords.{Cutting, next_said};

    ghost Value = { Cutting };

    ghost view = { λ c. record { cut = c.cut; next = next_said c.next } };
}

impl<'a> CutWords<'a> {
    fn new(alloc: Global) -> Self
        ensures { result ≡ nothing }
    {
        CutWords {
            options: Vec::new(alloc),
            plain: Vec::new(alloc),
        }
    }

    /// One option more.
    fn push_option(&mut self, name: &'a str, value: &'a str) -> Result<(), AllocError>
        ensures { OnOk result (self.new ≡ record self.old { options = self.old.options ++ given name.entry.now value.entry.now ∷ [] }) }
    {
        self.options.push(Given { name, value })?;
        Ok(())
    }

    /// One plain word more.
    fn push_plain(&mut self, word: &'a str) -> Result<(), AllocError>
        ensures { OnOk result (self.new ≡ record self.old { plain = self.old.plain ++ word.entry.now ∷ [] }) }
    {
        self.plain.push(word)?;
        Ok(())
    }
}

impl<'a> Cutter<'a> {
    /// No words yet.
    fn new(alloc: Global) -> Self
        ensures { result ≡ record { cut = nothing; next = any } }
    {
        Cutter {
            cut: CutWords::new(alloc),
            next: Next::Any,
        }
    }

    /// Takes a word that no option waits for.
    fn take_any(&mut self, word: &'a str) -> Result<(), WordsFault>
        requires { self.old.next ≡ any }
        ensures cut { OnOk result ((words : List (List ℕ)) → whole self.new words ≡ whole self.old (word.entry.now ∷ words)) }
        ensures words { IfErr result (λ e. e ≡ Words → (words : List (List ℕ)) → cut_from (word.entry.now ∷ words) self.old.next ≡ None) }
    {
        match word_kind(word) {
            None => return Err(WordsFault::Words),
            Some(WordKind::Plain) => self.cut.push_plain(word)?,
            Some(WordKind::Rest) => self.next = Next::OnlyPlain,
            Some(WordKind::Joined(name, value)) => self.cut.push_option(name, value)?,
            Some(WordKind::Alone(name)) => self.next = Next::Value(name),
        }
        Ok(())
    }

    /// Takes the value of the option with this name.
    fn take_value(&mut self, name: &'a str, word: &'a str) -> Result<(), WordsFault>
        requires { self.old.next ≡ value_for name.now }
        ensures cut { OnOk result ((words : List (List ℕ)) → whole self.new words ≡ whole self.old (word.entry.now ∷ words)) }
        ensures words { IfErr result (λ e. e ≡ Words → (words : List (List ℕ)) → cut_from (word.entry.now ∷ words) self.old.next ≡ None) }
    {
        if is_dashed(word) {
            return Err(WordsFault::Words);
        }
        self.cut.push_option(name, word)?;
        self.next = Next::Any;
        Ok(())
    }

    /// Takes the next word.
    fn take(&mut self, word: &'a str) -> Result<(), WordsFault>
        ensures cut { OnOk result ((words : List (List ℕ)) → whole self.new words ≡ whole self.old (word.entry.now ∷ words)) }
        ensures words { IfErr result (λ e. e ≡ Words → (words : List (List ℕ)) → cut_from (word.entry.now ∷ words) self.old.next ≡ None) }
    {
        match self.next {
            Next::Any => self.take_any(word),
            Next::Value(name) => self.take_value(name, word),
            Next::OnlyPlain => {
                self.cut.push_plain(word)?;
                Ok(())
            }
        }
    }

    /// The words are at their end.
    fn finish(self) -> Result<CutWords<'a>, WordsFault>
        ensures cut { IfOk result (λ c. (whole self.entry [] ≡ Some c)) }
        ensures words { IfErr result (λ e. e ≡ Words → cut_end self.entry.next ≡ None) }
    {
        match self.next {
            Next::Value(_) => Err(WordsFault::Words),
            Next::Any | Next::OnlyPlain => Ok(self.cut),
        }
    }
}

/// Cuts the words behind the first.
pub(crate) fn cut_words<'a>(alloc: Global, words: &'a WordList) -> Result<CutWords<'a>, WordsFault>
    requires { 0 < length words.now }
    ensures cut { IfOk result (λ c. cut_from (drop 1 words.now) any ≡ Some c) }
    ensures words { IfErr result (λ e. e ≡ Words → cut_from (drop 1 words.now) any ≡ None) }
{
    let mut cutter = Cutter::new(alloc);
    for i in 1..words.len() {
        cutter.take(words.get(i))?;
    }
    cutter.finish()
}
