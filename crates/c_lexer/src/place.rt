//! Places in a text.
ghost use Rattle.std.specs.Prelude.{◌≡◌, ◌+◌, ◌<◌, ◌≤◌, ◌^◌, length};
ghost use Rattle.c_lexer.specs.Places.{behind as place_behind};

/// Where a byte stands: its number, counted from 0, and its line and column, counted from 1.
#[derive(Clone, Copy, PartialEq, Eq, Debug)]
pub(crate) struct Place {
    pub(crate) at: usize,
    pub(crate) line: u64,
    pub(crate) column: u64,
}

impl Place {
    /// The place of the first byte.
    pub(crate) const START: Place = Place {
        at: 0,
        line: 1,
        column: 1,
    };

    /// The place behind some bytes.
    pub(crate) fn behind(self, bytes: &[u8]) -> Place
        requires at { self.at + length bytes.now < 2 ^ 64 }
        requires line { self.line + length bytes.now < 2 ^ 64 }
        requires column { self.column + length bytes.now < 2 ^ 64 }
        ensures place { result ≡ place_behind bytes.now self }
        ensures at { result.at ≡ self.at + length bytes.now }
        ensures line { result.line ≤ self.line + length bytes.now }
        ensures column { result.column ≤ self.column + length bytes.now }
    {
        let mut place = self;
        for byte in bytes {
            place.at += 1;
            if *byte == b'\n' {
                place.line += 1;
                place.column = 1;
            } else {
                place.column += 1;
            }
        }
        place
    }
}
