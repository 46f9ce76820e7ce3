//! The words of a command line.
ghost use Rattle.std.specs.Prelude.{◌≡◌, ◌<◌, ◌++◌, ◌∷◌, [], length, slice_index_or, OnOk, OnErr};

use std::alloc::{AllocError, Global};
use std::marker::Model;

/// Words in a row. Contracts see the list of their bytes.
#[derive(Drop)]
pub struct WordList {
    alloc: Global,
    words: Vec<String>,
}

impl Model for WordList {
    ghost use Rattle.std.specs.Prelude.{List, ℕ, map, string_bytes};

    ghost Value = { List (List ℕ) };

    ghost view = { λ w. map (λ word. string_bytes word) w.words.items };
}

impl WordList {
    /// No words yet. Takes no memory.
    pub fn new(alloc: Global) -> Self
        ensures { result ≡ [] }
    {
        WordList {
            alloc,
            words: Vec::new(alloc),
        }
    }

    /// Adds a copy of a word behind the others. At an error the words are as they were.
    pub fn push(&mut self, word: &str) -> Result<(), AllocError>
        ensures pushed { OnOk result (self.new ≡ self.old ++ word.now ∷ []) }
        ensures err { OnErr result (self.new ≡ self.old) }
    {
        self.words.push(String::from_str(self.alloc, word)?)?;
        Ok(())
    }

    /// How many words there are.
    pub fn len(&self) -> usize
        ensures { result ≡ length self.now }
    {
        self.words.len()
    }

    /// The word with this number, counted from 0.
    pub fn get(&self, i: usize) -> &str
        requires { i < length self.now }
        ensures { result.now ≡ slice_index_or self.now i [] }
    {
        self.words[i].as_str()
    }
}
