//! What one line of a text is refused for.
use crate::kinds::InputKind;

/// Why a line was not taken.
#[derive(Clone, Copy, Debug, PartialEq, Eq)]
pub enum LineFault {
    /// This is wrong with it.
    Kind(InputKind),
    /// Memory was wanted.
    NoMemory,
}
