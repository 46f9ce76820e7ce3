//! The numbers of the rows, as each format writes them.
ghost use Rattle.std.specs.Prelude.{◌≡◌, ◌+◌, ◌<◌, ◌≤◌, min, length};
ghost use Rattle.partition_file.specs.FieldsRead.{number_in, little_at, label_of as its_label, destination_of as its_destination};
ghost use Rattle.partition_file.specs.Reader.{IsFront};

use crate::types::{Format, PartFault};
use byteorder::{ByteOrder, LittleEndian};
use disk_model::FormKind;
use graph_words::Edge;
use group_number::{NumberRead, read_group};

/// The number of so many bytes in front, its low byte first.
#[inline(always)]
fn read_little(width: usize, bytes: &[u8]) -> NumberRead
    requires some { 0 < width }
    requires most { width ≤ 8 }
    ensures { result ≡ little_at width bytes.now }
{
    if bytes.len() < width {
        return NumberRead::Short;
    }
    let number = match width {
        2 => u64::from(LittleEndian::read_u16(bytes)),
        4 => u64::from(LittleEndian::read_u32(bytes)),
        8 => LittleEndian::read_u64(bytes),
        _ => LittleEndian::read_uint(bytes, width),
    };
    NumberRead::Number { number, len: width }
}

/// The number in front, and how many bytes it has. None where the bytes end within it.
#[inline(always)]
pub(crate) fn front(
    format: Format,
    width: usize,
    place: u64,
    bytes: &[u8],
) -> Result<Option<(u64, usize)>, PartFault>
    requires some { 0 < width }
    requires most { width ≤ 8 }
    ensures { IsFront (number_in format width bytes.now) place result }
{
    let read = match format {
        Format::First => read_little(width, bytes),
        Format::Second => read_group(bytes),
    };
    match read {
        NumberRead::Short => Ok(None),
        NumberRead::Bad => Err(PartFault {
            place,
            kind: FormKind::BadNumber,
        }),
        NumberRead::Number { number, len } => Ok(Some((number, len))),
    }
}

/// The label that a number tells behind the edge before it in the row.
#[inline(always)]
pub(crate) fn label_of(format: Format, before: Option<Edge>, number: u64) -> u64
    ensures { result ≡ min (its_label format before number) u64.MAX }
{
    match (format, before) {
        (Format::Second, Some(edge)) => number.saturating_add(u64::from(edge.label.0)),
        _ => number,
    }
}

/// The destination that a number tells behind the edge before it in the row.
#[inline(always)]
pub(crate) fn destination_of(format: Format, before: Option<Edge>, label: u16, number: u64) -> u64
    ensures { result ≡ min (its_destination format before label number) u64.MAX }
{
    match (format, before) {
        (Format::Second, Some(edge)) if edge.label.0 == label => {
            number.saturating_add(u64::from(edge.dst.0) + 1)
        }
        _ => number,
    }
}
