ghost use Rattle.std.specs.Prelude.{◌≡◌, ◌↔◌, ℕ, List, ◌++◌, IsTrue, All, ◌≤◌, ◌&&◌, nat_le};
ghost use Rattle.std.specs.List.{list_all};
ghost use Rattle.graph_words.specs.Text.{IsLabel, distinct, with_names, is_label_word};

use crate::limits::MOST_LABEL_BYTES;

/// Whether the bytes are a label's name: 1 to `MOST_LABEL_BYTES` bytes, each from 0x21 to 0x7E.
pub fn is_label(name: &[u8]) -> bool
    ensures label { IsTrue result ↔ IsLabel name.now }
    ensures test { result ≡ is_label_word name.now }
{
    1 <= name.len() && name.len() <= MOST_LABEL_BYTES && is_printed(name)
}

fn is_printed(name: &[u8]) -> bool
    ensures all { IsTrue result ↔ All (λ b. (0x21 ≤ b) × (b ≤ 0x7E)) name.now }
    ensures test { result ≡ list_all (λ b. nat_le 0x21 b && nat_le b 0x7E) name.now }
{
    name.iter().all(|b| 0x21 <= *b && *b <= 0x7E)
}

/// The names of a list that goes on: those of the front, and then each that is new.
pub fn distinct_grows()
    ensures { (xs ys : List (List ℕ)) → distinct (xs ++ ys) ≡ with_names (distinct xs) ys }
{}
