//! A line that a terminal shows as it stands.
ghost use Rattle.std.specs.Prelude.{◌≡◌, ◌≤◌, [], All, length};
ghost use Rattle.hints.specs.Plain.{IsPlain};

use arrayvec::ArrayVec;
use itoa::Buffer;
use std::marker::Model;

/// The bytes that a line may have. What comes behind them is left out.
const ROOM: usize = 1024;

/// The bytes of a text or of a name that are shown at most.
const SHOWN: usize = 60;

/// The bytes of a path that are shown at most.
const PATH_SHOWN: usize = 200;

const DIGITS: [u8; 16] = *b"0123456789abcdef";

/// A line of at most 1,024 bytes, each from the space to the tilde, so that no byte of a file or of a word steers a
/// terminal. It takes no memory beside itself.
#[derive(Drop)]
pub struct Line {
    bytes: ArrayVec<u8, ROOM>,
}

impl Model for Line {
    ghost use Rattle.std.specs.Prelude.{List, ℕ, All};
    ghost use Rattle.hints.specs.Plain.{IsPlain};

    ghost Value = { List ℕ };

    ghost view = { λ l. l.bytes.items };

    ghost invariant = { λ l. All IsPlain l.bytes.items };
}

impl Line {
    /// An empty line.
    pub fn new() -> Self
        ensures { result ≡ [] }
    {
        Line {
            bytes: ArrayVec::new(),
        }
    }

    /// Its bytes, without a line feed.
    pub fn as_bytes(&self) -> &[u8]
        ensures same { result.now ≡ self.now }
        ensures plain { All IsPlain result.now }
    {
        self.bytes.as_slice()
    }

    /// Its text, without a line feed.
    pub fn as_str(&self) -> &str {
        str::from_utf8(self.bytes.as_slice()).unwrap_or("")
    }

    // A byte that is shown. A full line leaves it out.
    fn push(&mut self, byte: u8)
        requires { IsPlain byte }
    {
        let _ = self.bytes.try_push(byte);
    }

    // A byte, or its number where a terminal wouldn't show it.
    fn byte(&mut self, byte: u8) {
        if 0x20 <= byte && byte <= 0x7E {
            self.push(byte);
        } else {
            self.push(b'\\');
            self.push(b'x');
            self.digit(byte / 16);
            self.digit(byte % 16);
        }
    }

    fn digit(&mut self, digit: u8)
        requires { digit ≤ 15 }
    {
        let byte = DIGITS[digit as usize];
        if 0x20 <= byte && byte <= 0x7E {
            self.push(byte);
        }
    }

    /// Bytes, those that a terminal wouldn't show as `\xNN`.
    pub fn bytes(&mut self, bytes: &[u8]) {
        for byte in bytes {
            self.byte(*byte);
        }
    }

    /// A text.
    pub fn text(&mut self, text: &str) {
        self.bytes(text.as_bytes());
    }

    /// A number.
    pub fn number(&mut self, number: u64) {
        let mut buffer = Buffer::new();
        self.bytes(buffer.format(number).as_bytes());
    }

    // Not more than so many bytes, and two points for those that are left out.
    fn front(&mut self, bytes: &[u8], most: usize) {
        if bytes.len() <= most {
            self.bytes(bytes);
        } else {
            self.bytes(&bytes[..most]);
            self.bytes(b"..");
        }
    }

    /// Bytes of a file or of a word in quotes, shortened to 60.
    pub fn quoted(&mut self, bytes: &[u8]) {
        self.bytes(b"'");
        self.front(bytes, SHOWN);
        self.bytes(b"'");
    }

    /// How many bytes it has.
    pub fn len(&self) -> usize
        ensures { result ≡ length self.now }
    {
        self.bytes.len()
    }

    /// Spaces, up to this length. Where it is as long already nothing changes.
    pub fn pad(&mut self, len: usize) {
        for _ in self.bytes.len()..len.min(ROOM) {
            self.push(b' ');
        }
    }

    /// A path, shortened to 200 bytes.
    pub fn path(&mut self, path: &str) {
        self.front(path.as_bytes(), PATH_SHOWN);
    }
}
