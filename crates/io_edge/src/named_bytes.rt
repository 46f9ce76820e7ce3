//! A name and its bytes.
ghost use Rattle.std.specs.Prelude.{◌≡◌, length};
ghost use Rattle.std.specs.Option.{option_copied};
ghost use Rattle.io_edge.specs.Devices.{GivesBytes};
ghost use Rattle.io_edge.specs.MemFiles.{first_named, read_len};

use std::marker::Model;

/// A file in memory: its name, and its bytes.
#[derive(Drop)]
pub struct NamedBytes {
    /// The name, byte for byte.
    pub name: String,
    /// The bytes, from place 0 on.
    pub bytes: Vec<u8>,
}

impl Model for NamedBytes {
    ghost use Rattle.std.specs.Prelude.{string_bytes};
    ghost use Rattle.io_edge.specs.MemFiles.{NamedFile};

    ghost Value = { NamedFile };

    ghost view = { λ f. record { name = string_bytes f.name; bytes = f.bytes.items } };
}

/// The bytes of the first file of a name.
pub(crate) fn find_file<'a>(files: &'a [NamedBytes], name: &str) -> Option<&'a [u8]>
    ensures { option_copied result ≡ first_named files.now name.now }
{
    let file = files.iter().find(|file| file.name.as_str() == name)?;
    Some(file.bytes.as_slice())
}

/// Copies the bytes from a place on, as many as there are and fit.
pub(crate) fn copy_part(bytes: &[u8], at: u64, buf: &mut [u8]) -> usize
    ensures count { result ≡ read_len bytes.now at (length buf.new) }
    ensures bytes { GivesBytes bytes.now at buf.new result }
{
    if at >= bytes.len() as u64 {
        return 0;
    }
    let rest = &bytes[at as usize..];
    let n = rest.len().min(buf.len());
    buf[..n].copy_from_slice(&rest[..n]);
    n
}
