//! Copies of bytes, and a write over them.
ghost use Rattle.std.specs.Prelude.{◌≡◌, ◌<◌, ◌≤◌, ◌+◌, ◌-◌, ◌^◌, ◌++◌, ℕ, length, take, replicate, IfOk};
ghost use Rattle.disk_model.specs.Disk.{overwritten, written, ReadsBytes};

use std::alloc::{AllocError, Global};

pub(crate) fn copy(alloc: Global, bytes: &[u8]) -> Result<Vec<u8>, AllocError>
    ensures { IfOk result (λ v. v.items ≡ bytes.now) }
{
    let mut v = Vec::new(alloc);
    v.extend_from_slice(bytes)?;
    Ok(v)
}

// The bytes before a place, with zeros for those that aren't there.
fn front(alloc: Global, file: &[u8], at: usize) -> Result<Vec<u8>, AllocError>
    ensures { IfOk result (λ v. v.items ≡ take at (file.now ++ replicate (at - length file.now) 0)) }
{
    if at <= file.len() {
        return copy(alloc, &file[..at]);
    }
    let mut v = copy(alloc, file)?;
    v.resize(at, 0)?;
    Ok(v)
}

fn overwrite(alloc: Global, file: &[u8], at: usize, bytes: &[u8]) -> Result<Vec<u8>, AllocError>
    requires { at + length bytes.now < 2 ^ 64 }
    ensures { IfOk result (λ v. v.items ≡ overwritten file.now at bytes.now) }
{
    let mut next = front(alloc, file, at)?;
    next.extend_from_slice(bytes)?;
    let end = (at + bytes.len()).min(file.len());
    next.extend_from_slice(&file[end..])?;
    Ok(next)
}

/// A file after a write: its bytes stay but for those in the range, and a gap before it is zeros.
/// An empty piece changes nothing.
pub(crate) fn write_over(
    alloc: Global,
    file: &[u8],
    at: usize,
    bytes: &[u8],
) -> Result<Vec<u8>, AllocError>
    requires { at + length bytes.now < 2 ^ 64 }
    ensures { IfOk result (λ v. v.items ≡ written file.now at bytes.now) }
{
    if bytes.is_empty() {
        return copy(alloc, file);
    }
    overwrite(alloc, file, at, bytes)
}

/// Fills a buffer with the bytes of a file from a place on, and says how many there were.
pub(crate) fn read_into(file: &[u8], at: usize, buf: &mut [u8]) -> usize
    ensures { ReadsBytes file.now at buf.new result }
{
    let from = at.min(file.len());
    let rest = &file[from..];
    let n = rest.len().min(buf.len());
    buf[..n].copy_from_slice(&rest[..n]);
    n
}
