//! The known word that a mistyped one is nearest to.
ghost use Rattle.std.specs.Prelude.{◌≤◌, length};

/// Whether a word becomes the other by one edit: a letter more, one less, another one, or two that stand side by side
/// in each other's place.
pub(crate) fn is_near(word: &[u8], known: &[u8]) -> bool {
    let front = common_front(word, known);
    let word = &word[front..];
    let known = &known[front..];
    is_same(tail(word, 1), tail(known, 1))
        || is_same(tail(word, 1), known)
        || is_same(word, tail(known, 1))
        || is_swapped(word, known)
}

// How many bytes both begin with.
fn common_front(a: &[u8], b: &[u8]) -> usize
    ensures first { result ≤ length a.now }
    ensures second { result ≤ length b.now }
{
    let mut front = 0;
    while front < a.len() && front < b.len() && a[front] == b[front] {
        front += 1;
    }
    front
}

// What stands behind so many bytes.
fn tail(bytes: &[u8], count: usize) -> &[u8] {
    if bytes.len() < count {
        &bytes[bytes.len()..]
    } else {
        &bytes[count..]
    }
}

fn is_same(a: &[u8], b: &[u8]) -> bool {
    a == b
}

// Whether the first two bytes stand in each other's place, and all else is the same.
fn is_swapped(a: &[u8], b: &[u8]) -> bool {
    match (a, b) {
        ([x, y, ..], [z, w, ..]) => *x == *w && *y == *z && is_same(tail(a, 2), tail(b, 2)),
        _ => false,
    }
}

/// The first known word that is near, or that the word begins.
pub(crate) fn nearest(word: &str, known: &[&'static str]) -> Option<&'static str> {
    for candidate in known {
        if is_near(word.as_bytes(), candidate.as_bytes()) {
            return Some(*candidate);
        }
    }
    if word.len() < 3 {
        return None;
    }
    for candidate in known {
        if candidate.starts_with(word) {
            return Some(*candidate);
        }
    }
    None
}
