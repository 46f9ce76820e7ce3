//! A line of an input, read again for a person.
ghost use Rattle.std.specs.Prelude.{◌≤◌, length};

use io_edge::Inputs;
use std::alloc::{AllocError, Global};

/// How many bytes are read at a time.
const PIECE: usize = 65_536;

/// How many bytes of a line are kept.
const MOST: usize = 4_096;

/// A look for a line: how many line feeds stand before it, and its front as far as it was read.
#[derive(Drop)]
struct Search {
    feeds_before: u64,
    text: Vec<u8>,
    is_over: bool,
    place: u64,
}

impl Search {
    fn new(alloc: Global, line: u64) -> Self {
        Search {
            feeds_before: line.saturating_sub(1),
            text: Vec::new(alloc),
            is_over: line == 0,
            place: 0,
        }
    }

    // The next byte of the input.
    fn take(&mut self, byte: u8) -> Result<(), AllocError> {
        if self.feeds_before > 0 {
            if byte == b'\n' {
                self.feeds_before -= 1;
            }
            return Ok(());
        }
        if byte == b'\n' || self.text.len() >= MOST {
            self.is_over = true;
            return Ok(());
        }
        self.text.push(byte)?;
        Ok(())
    }

    // The next bytes of the input, as far as the line goes.
    fn take_all(&mut self, bytes: &[u8]) -> Result<(), AllocError> {
        for byte in bytes {
            if self.is_over {
                return Ok(());
            }
            self.take(*byte)?;
        }
        Ok(())
    }

    // The line without its carriage return, where the input has it.
    fn line(self) -> Option<Vec<u8>> {
        let mut text = self.text;
        if self.feeds_before > 0 {
            return None;
        }
        if text.as_slice().last() == Some(&b'\r') {
            let _ = text.pop();
        }
        Some(text)
    }
}

// Reads on at the search's place. It answers whether there may be more, and nothing where the input can't be read.
fn look_on<I: Inputs>(
    inputs: &mut I,
    name: &str,
    buf: &mut [u8],
    search: &mut Search,
) -> Option<bool>
    requires { length buf.old ≤ 65536 }
{
    if search.place > u64::MAX / 2 {
        return None;
    }
    let n = inputs.read(name, search.place, buf).ok()?;
    search.place += n as u64;
    search.take_all(&buf[..n]).ok()?;
    Some(n > 0 && !search.is_over)
}

/// A line of an input, counted from 1, without its line feed and of at most 4,096 bytes.
///
/// It is none where the input can't be read again, or has no such line any more.
pub(crate) fn line_of<I: Inputs>(
    alloc: Global,
    inputs: &mut I,
    name: &str,
    line: u64,
) -> Option<Vec<u8>> {
    let mut search = Search::new(alloc, line);
    let mut buf = [0u8; PIECE];
    // More pieces than the longest text has.
    for _ in 0..u32::MAX {
        if !look_on(inputs, name, &mut buf, &mut search)? {
            break;
        }
    }
    search.line()
}
