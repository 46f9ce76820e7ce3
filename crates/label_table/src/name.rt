//! A name that a table keeps, and bytes that are looked up in it.
ghost use Rattle.std.specs.Prelude.{◌≡◌, ◌∷◌, [], IfOk};
ghost use Rattle.std.proofs.Common.{ap, sym, ◌∙◌};
ghost use Rattle.std.specs.Cmp.{partial_equiv_from_equiv};
ghost use Rattle.std.specs.Cmp.Lexicographic.{nat_list_eq_equiv, same_text};
ghost use Rattle.graph_words.specs.Text.{same_name};

use indexmap::Equivalent;
use std::alloc::{AllocError, Global};
use std::hash::{Hash, Hasher};
use std::marker::Model;

/// The bytes of a name.
#[derive(Drop)]
pub struct Name {
    bytes: Vec<u8>,
}

impl Model for Name {
    ghost use Rattle.std.specs.Prelude.{List, ℕ};

    ghost Value = { List ℕ };

    ghost view = { λ n. n.bytes.items };
}

impl Name {
    /// A copy of the bytes.
    pub fn of(alloc: Global, bytes: &[u8]) -> Result<Self, AllocError>
        ensures { IfOk result (λ name. name ≡ bytes.now) }
    {
        Ok(Name {
            bytes: bytes.to_vec(alloc)?,
        })
    }

    /// The bytes.
    pub fn as_slice(&self) -> &[u8]
        ensures { result.now ≡ self.now }
    {
        self.bytes.as_slice()
    }
}

impl PartialEq for Name {
    ghost eq = { same_name };

    ghost laws = { partial_equiv_from_equiv nat_list_eq_equiv };

    fn eq(&self, other: &Name) -> bool {
        self.as_slice() == other.as_slice()
    }
}

impl Eq for Name {
    ghost laws = { nat_list_eq_equiv };
}

impl Hash for Name {
    ghost hash_input = { λ n. n ∷ [] };

    ghost respects_eq = { λ a b same. ap (λ bytes. bytes ∷ []) (same_text a b (sym same)) };

    fn hash<H: Hasher>(&self, state: &mut H) {
        state.write(self.as_slice());
    }
}

/// Bytes that are looked up among names.
#[derive(Clone, Copy, PartialEq, Eq)]
pub struct Spelled<'a> {
    pub bytes: &'a [u8],
}

impl<'a> Hash for Spelled<'a> {
    ghost hash_input = { λ s. s.bytes.now ∷ [] };

    ghost respects_eq = { λ a b same. ap (λ bytes. bytes ∷ []) (same_text a.bytes.now b.bytes.now (sym same)) };

    fn hash<H: Hasher>(&self, state: &mut H) {
        state.write(self.bytes);
    }
}

impl<'a> Equivalent<Name> for Spelled<'a> {
    ghost equivalent = { λ s name. same_name name s.bytes.now };

    ghost respects_hash = { λ s name same. ap (λ bytes. bytes ∷ []) (sym (same_text name s.bytes.now (sym same))) };

    ghost respects_eq = { λ s x y same. ap (same_name y) (sym (same_text x s.bytes.now (sym same))) ∙ nat_list_eq_equiv.symm y x };

    fn equivalent(&self, name: &Name) -> bool {
        name.as_slice() == self.bytes
    }
}
