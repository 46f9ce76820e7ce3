ghost use Rattle.std.specs.Prelude.{◌≡◌, ◌≤◌, ◌<◌, ◌^◌, ◌++◌, ◌∷◌, ℕ, List, [], length, OnOk, IfOk};
ghost use Rattle.std.specs.List.{flat_map, AllByRecursion};
ghost use Rattle.byteorder.specs.Endian.{little_bytes};
ghost use Rattle.manifest_codec.specs.declared.types.Version.TheVariants.{First};
ghost use Rattle.manifest_codec.specs.Rules.{newest_version};
ghost use Rattle.manifest_codec.specs.Spelling.{FitsManifest, spelling, head_of, head_bytes, label_bytes, part_bytes, parts_bytes};

use crate::types::{Manifest, PartEntry};
use byteorder::{ByteOrder, LittleEndian};
use graph_words::MOST_LABEL_BYTES;
use label_table::Name;
use std::alloc::{AllocError, Global};

fn put_u16(out: &mut Vec<u8>, n: u16) -> Result<(), AllocError>
    ensures { OnOk result (out.new.items ≡ out.old.items ++ little_bytes 2 n) }
{
    let mut bytes = [0; 2];
    LittleEndian::write_u16(&mut bytes, n);
    out.extend_from_slice(&bytes)
}

fn put_u32(out: &mut Vec<u8>, n: u32) -> Result<(), AllocError>
    ensures { OnOk result (out.new.items ≡ out.old.items ++ little_bytes 4 n) }
{
    let mut bytes = [0; 4];
    LittleEndian::write_u32(&mut bytes, n);
    out.extend_from_slice(&bytes)
}

fn put_u64(out: &mut Vec<u8>, n: u64) -> Result<(), AllocError>
    ensures { OnOk result (out.new.items ≡ out.old.items ++ little_bytes 8 n) }
{
    let mut bytes = [0; 8];
    LittleEndian::write_u64(&mut bytes, n);
    out.extend_from_slice(&bytes)
}

fn put_u8(out: &mut Vec<u8>, n: u8) -> Result<(), AllocError>
    ensures { OnOk result (out.new.items ≡ out.old.items ++ little_bytes 1 n) }
{
    out.push(n)?;
    Ok(())
}

/// The magic, and the numbers behind it.
fn put_head(out: &mut Vec<u8>, m: &Manifest) -> Result<(), AllocError>
    ensures { OnOk result (out.new.items ≡ out.old.items ++ head_bytes First (head_of m.now)) }
{
    out.extend_from_slice(b"GSM1")?;
    put_u8(out, m.generation)?;
    put_u64(out, m.round)?;
    put_u32(out, m.vertices)?;
    put_u64(out, m.grammar_len)?;
    put_u64(out, m.edges_len)?;
    Ok(())
}

fn put_label(out: &mut Vec<u8>, name: &[u8]) -> Result<(), AllocError>
    requires { length name.now ≤ MOST_LABEL_BYTES }
    ensures { OnOk result (out.new.items ≡ out.old.items ++ label_bytes name.now) }
{
    out.push(name.len() as u8)?;
    out.extend_from_slice(name)
}

fn put_labels(out: &mut Vec<u8>, labels: &[Name]) -> Result<(), AllocError>
    requires { AllByRecursion (λ name. length name ≤ MOST_LABEL_BYTES) labels.now }
    ensures { OnOk result (out.new.items ≡ out.old.items ++ flat_map label_bytes labels.now) }
{
    for name in labels {
        put_label(out, name.as_slice())?;
    }
    Ok(())
}

fn put_part(out: &mut Vec<u8>, part: &PartEntry, newest: u64) -> Result<(), AllocError>
    ensures { OnOk result (out.new.items ≡ out.old.items ++ part_bytes part.now newest) }
{
    put_u32(out, part.hi)?;
    put_u32(out, part.file)?;
    put_u64(out, newest)
}

/// Each partition with its newest birth.
fn put_parts(out: &mut Vec<u8>, parts: &[PartEntry], newest: &[u64]) -> Result<(), AllocError>
    requires { length parts.now ≡ length newest.now }
    ensures { OnOk result (out.new.items ≡ out.old.items ++ parts_bytes parts.now newest.now) }
{
    for (i, part) in parts.iter().enumerate() {
        put_part(out, part, newest[i])?;
    }
    Ok(())
}

fn put_cells(out: &mut Vec<u8>, cells: &[u64]) -> Result<(), AllocError>
    ensures { OnOk result (out.new.items ≡ out.old.items ++ flat_map (little_bytes 8) cells.now) }
{
    for n in cells {
        put_u64(out, *n)?;
    }
    Ok(())
}

/// The body's one spelling in the newest version, without its gate.
///
/// `longest_spelling` says how many bytes it has at the most.
pub fn encode(alloc: Global, m: &Manifest) -> Result<Vec<u8>, AllocError>
    requires { FitsManifest m.now }
    ensures { IfOk result (λ v. v.items ≡ spelling newest_version m.now) }
{
    let mut out = Vec::new(alloc);
    put_head(&mut out, m)?;
    let labels = m.labels.names();
    put_u16(&mut out, labels.len() as u16)?;
    put_labels(&mut out, labels)?;
    let parts = m.parts.as_slice();
    put_u16(&mut out, parts.len() as u16)?;
    put_parts(&mut out, parts, m.marks.newest_rows())?;
    put_cells(&mut out, m.map.counts())?;
    put_cells(&mut out, m.marks.joined_rows())?;
    Ok(out)
}
