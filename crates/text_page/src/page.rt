//! Pieces of a text are gathered before they go to the sink.
ghost use Rattle.std.specs.Prelude.{◌≡◌, ◌+◌, ◌<◌, ◌≤◌, ◌++◌, [], length, OnOk, MatchBool};
ghost use Rattle.faults.specs.Counts.{HasCause};
ghost use Rattle.io_edge.specs.Devices.{Takes};
ghost use Rattle.text_page.specs.Gathered.{Gathers};

use arrayvec::ArrayVec;
use io_edge::{Failed, Sink};
use std::marker::Model;

/// How many bytes a page holds at most.
pub const PAGE_LEN: usize = 16_384;

/// The end of a text, which the sink did not get yet. It takes no memory beside itself.
///
/// Contracts see the bytes that it holds. After a call that failed it is of no more use.
#[derive(Drop)]
pub struct Page {
    bytes: ArrayVec<u8, PAGE_LEN>,
}

impl Model for Page {
    ghost use Rattle.std.specs.Prelude.{List, ℕ};

    ghost Value = { List ℕ };

    ghost view = { λ p. p.bytes.items };
}

impl Page {
    /// A page that holds nothing.
    pub fn new() -> Self
        ensures { result ≡ [] }
    {
        Page {
            bytes: ArrayVec::new(),
        }
    }

    // Adds a piece where it fits, and answers whether it did.
    fn hold(&mut self, piece: &[u8]) -> bool
        ensures { MatchBool result (self.new ≡ self.old ++ piece.now)
            ((self.new ≡ self.old) × (PAGE_LEN < length self.old + length piece.now)) }
    {
        if self.bytes.remaining_capacity() < piece.len() {
            return false;
        }
        self.bytes.try_extend_from_slice(piece).unwrap();
        true
    }

    /// Gives the sink all that the page holds, in one piece. After Ok the page holds nothing.
    ///
    /// `Failed` comes only where the sink failed, which has then taken a prefix.
    pub fn flush<O: Sink>(&mut self, sink: &mut O) -> Result<(), Failed>
        ensures taken { Takes (O.told sink.old) (O.told sink.new) result self.old }
        ensures empty { OnOk result (self.new ≡ []) }
        ensures cause { HasCause (O.faults sink.old) (O.faults sink.new) result }
    {
        sink.write(self.bytes.as_slice())?;
        self.bytes.clear();
        Ok(())
    }

    /// Puts a piece of a text behind what the page holds, and where it fits, the sink is not called. Where it doesn't,
    /// what the page holds goes to the sink first, and a piece that is longer than a page goes there too.
    ///
    /// `Failed` comes only where the sink failed, which has then taken a prefix of what the page held and the piece.
    pub fn put<O: Sink>(&mut self, sink: &mut O, piece: &[u8]) -> Result<(), Failed>
        ensures gathered { Gathers (O.told sink.old) self.old (O.told sink.new) self.new result piece.now }
        ensures held { length self.old + length piece.now ≤ PAGE_LEN → (self.new ≡ self.old ++ piece.now) × (sink.new ≡ sink.old) }
        ensures cause { HasCause (O.faults sink.old) (O.faults sink.new) result }
    {
        if self.hold(piece) {
            return Ok(());
        }
        self.flush(sink)?;
        if self.hold(piece) {
            return Ok(());
        }
        sink.write(piece)
    }
}
