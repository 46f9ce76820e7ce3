//! A whole input, read piece by piece.
ghost use Rattle.std.specs.Prelude.{◌≡◌, ◌+◌, ◌<◌, ◌≤◌, ◌^◌, ℕ, List, Option, Some, length, vec_len, IfOk, IsErrOf};
ghost use Rattle.faults.specs.Counts.{Rose};
ghost use Rattle.io_edge.specs.WholeRead.{ReadsWhole};
ghost use Rattle.io_edge.specs.declared.whole.ReadFault.TheVariants.{ReadFailed, NoMemory};
ghost use Rattle.io_edge.specs.View.{KeepsInputs};

use crate::{Failed, Inputs};
use std::alloc::{AllocError, Global};

/// How many bytes are asked for in one call.
const PIECE_LEN: usize = 65_536;

/// Why an input was not read to its end.
#[derive(Clone, Copy, PartialEq, Eq, Debug)]
pub enum ReadFault {
    /// A read failed.
    ReadFailed,
    /// There was no memory for the bytes.
    NoMemory,
}

impl From<Failed> for ReadFault {
    ghost from_gives = { λ _ e. e ≡ ReadFailed };

    fn from(_: Failed) -> Self {
        ReadFault::ReadFailed
    }
}

impl From<AllocError> for ReadFault {
    ghost from_gives = { λ _ e. e ≡ NoMemory };

    fn from(_: AllocError) -> Self {
        ReadFault::NoMemory
    }
}

/// The bytes of an input from its start to its end, but none behind the first piece that reaches
/// past a limit, in bytes.
///
/// So a value that is longer than the limit says that the input is, and may not be the whole of it.
/// `ReadFailed` comes only where a read failed; at any error nothing of the bytes is kept.
pub fn read_whole<I: Inputs>(
    alloc: Global,
    inputs: &mut I,
    name: &str,
    limit: u64,
) -> Result<Vec<u8>, ReadFault>
    requires { limit ≤ 2 ^ 40 }
    ensures bytes { IfOk result (λ v. (file : List ℕ) → I.told inputs.old name.now ≡ Some file → ReadsWhole limit file v.items) }
    ensures len { IfOk result (λ v. vec_len v ≤ limit + 65536) }
    ensures failed { IsErrOf result ReadFault.ReadFailed → Rose (I.faults inputs.old name.now) (I.faults inputs.new name.now) }
    ensures keeps { KeepsInputs I.Inputs inputs.old inputs.new }
{
    let mut whole = Vec::new(alloc);
    let mut buf = new_piece(alloc)?;
    let mut at = 0;
    while at <= limit {
        let n = inputs.read(name, at, &mut buf)?;
        if n == 0 {
            return Ok(whole);
        }
        whole.extend_from_slice(&buf[..n])?;
        at += n as u64;
    }
    Ok(whole)
}

// Room for one piece.
fn new_piece(alloc: Global) -> Result<Vec<u8>, AllocError>
    ensures { IfOk result (λ v. vec_len v ≡ 65536) }
{
    vec![in alloc; 0; PIECE_LEN]
}
