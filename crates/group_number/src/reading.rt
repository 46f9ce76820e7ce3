ghost use Rattle.std.specs.Prelude.{◌≡◌, ◌≤◌, ◌<◌, ◌-◌};
ghost use Rattle.group_number.specs.Groups.{behind_group, groups_in, group_at, is_whole_group};

/// What is read where a group number should begin.
#[derive(Clone, Copy, Debug, PartialEq, Eq)]
pub enum NumberRead {
    /// The bytes end within the number.
    Short,
    /// No number below 2^64 is spelled so: it is too large, or its last group is a spare 0.
    Bad,
    /// The number, and how many bytes it takes, from 1 to 10.
    Number { number: u64, len: usize },
}

/// The group number that begins these bytes. Other bytes may stand behind it.
#[inline(always)]
pub fn read_group(bytes: &[u8]) -> NumberRead
    ensures { result ≡ group_at bytes.now }
{
    if bytes.is_empty() {
        return NumberRead::Short;
    }
    let first = bytes[0];
    if first < 128 {
        NumberRead::Number {
            number: first as u64,
            len: 1,
        }
    } else {
        read_more(first, &bytes[1..])
    }
}

/// A first group that has others behind it, and what is read of these. Numbers of two and of three bytes
/// are read at once.
#[inline(always)]
fn read_more(first: u8, bytes: &[u8]) -> NumberRead
    requires { 128 ≤ first }
    ensures { result ≡ behind_group (first - 128) (groups_in 57 bytes.now) }
{
    let low = (first - 128) as u64;
    if bytes.len() < 2 || bytes[0] == 0 {
        return read_behind(first, bytes);
    }
    if bytes[0] < 128 {
        return NumberRead::Number {
            number: low + bytes[0] as u64 * 128,
            len: 2,
        };
    }
    if bytes[1] == 0 || bytes[1] >= 128 {
        return read_behind(first, bytes);
    }
    NumberRead::Number {
        number: low + ((bytes[0] - 128) as u64 + bytes[1] as u64 * 128) * 128,
        len: 3,
    }
}

/// A first group, and what is read of any others behind it.
#[inline(never)]
fn read_behind(first: u8, bytes: &[u8]) -> NumberRead
    requires { 128 ≤ first }
    ensures { result ≡ behind_group (first - 128) (groups_in 57 bytes.now) }
{
    let mut number = (first - 128) as u64;
    let mut shift: u32 = 7;
    for (i, &byte) in bytes.iter().enumerate() {
        if byte == 0 || (shift == 63 && byte > 1) {
            return NumberRead::Bad;
        }
        if byte < 128 {
            return NumberRead::Number {
                number: number + ((byte as u64) << shift),
                len: i + 2,
            };
        }
        number += ((byte - 128) as u64) << shift;
        shift += 7;
    }
    NumberRead::Short
}

/// Whether the bytes hold a whole group number, or begin none. Bytes behind them then change nothing of what is read.
pub fn is_group_whole(held: &[u8]) -> bool
    ensures { result ≡ is_whole_group held.now }
{
    match read_group(held) {
        NumberRead::Short => false,
        NumberRead::Bad => true,
        NumberRead::Number { .. } => true,
    }
}
