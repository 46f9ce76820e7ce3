//! The lines that are printed.
ghost use Rattle.std.specs.Prelude.{◌≡◌, ◌+◌, ◌≤◌, ◌<◌, ◌^◌, ◌++◌, ◌∷◌, [], ℕ, length};
ghost use Rattle.arrayvec.specs.ArrayVec.{array_vec_len};
ghost use Rattle.edge_text.specs.Print.{edge_bytes};
ghost use Rattle.query_text.specs.Text as text;

use arrayvec::ArrayVec;
use graph_words::{Born, MOST_LABEL_BYTES};
use itoa::Buffer;

/// More than the longest line has: a word, four numbers, a label, blanks and a line feed.
const LINE_ROOM: usize = 192 + MOST_LABEL_BYTES;

/// One line, with its line feed.
pub(crate) type Line = ArrayVec<u8, LINE_ROOM>;

/// Adds bytes that fit.
fn append(line: &mut Line, bytes: &[u8])
    requires { array_vec_len line.old + length bytes.now ≤ LINE_ROOM }
    ensures items { line.new.items ≡ line.old.items ++ bytes.now }
    ensures len { array_vec_len line.new ≡ array_vec_len line.old + length bytes.now }
{
    line.try_extend_from_slice(bytes).unwrap();
}

/// The line of a number of vertices.
pub(crate) fn vertices_line(n: u32) -> Line
    ensures { result.items ≡ text.vertices_line n }
{
    let mut line = ArrayVec::new();
    let mut buffer = Buffer::new();
    append(&mut line, b"vertices ");
    append(&mut line, buffer.format(n).as_bytes());
    append(&mut line, b"\n");
    line
}

/// The line of a partition: its number, its bounds, and how many edges it has.
pub(crate) fn part_line(i: usize, lo: u32, hi: u32, edges: u64) -> Line
    ensures { result.items ≡ text.part_line i lo hi edges }
{
    let mut line = ArrayVec::new();
    let mut buffer = Buffer::new();
    append(&mut line, b"part ");
    append(&mut line, buffer.format(i).as_bytes());
    append(&mut line, b" ");
    append(&mut line, buffer.format(lo).as_bytes());
    append(&mut line, b" ");
    append(&mut line, buffer.format(hi).as_bytes());
    append(&mut line, b" ");
    append(&mut line, buffer.format(edges).as_bytes());
    append(&mut line, b"\n");
    line
}

/// The line of a store that has no work left.
pub(crate) fn finished_line() -> Line
    ensures { result.items ≡ text.finished_line }
{
    let mut line = ArrayVec::new();
    append(&mut line, b"finished\n");
    line
}

/// The line of a store of which a pair has work left.
pub(crate) fn unfinished_line(i: usize, j: usize) -> Line
    ensures { result.items ≡ text.unfinished_line i j }
{
    let mut line = ArrayVec::new();
    let mut buffer = Buffer::new();
    append(&mut line, b"unfinished ");
    append(&mut line, buffer.format(i).as_bytes());
    append(&mut line, b" ");
    append(&mut line, buffer.format(j).as_bytes());
    append(&mut line, b"\n");
    line
}

/// The line of a label: its name, and how many edges it has.
pub(crate) fn label_line(name: &[u8], count: u64) -> Line
    requires { length name.now ≤ MOST_LABEL_BYTES }
    ensures { result.items ≡ text.label_line name.now count }
{
    let mut line = ArrayVec::new();
    let mut buffer = Buffer::new();
    append(&mut line, b"label ");
    append(&mut line, name);
    append(&mut line, b" ");
    append(&mut line, buffer.format(count).as_bytes());
    append(&mut line, b"\n");
    line
}

/// The line of an answer: source and destination.
pub(crate) fn answer_line(born: &Born) -> Line
    ensures { result.items ≡ text.answer_line born.now }
{
    let mut line = ArrayVec::new();
    let mut buffer = Buffer::new();
    append(&mut line, b"answer ");
    append(&mut line, buffer.format(born.edge.src.0).as_bytes());
    append(&mut line, b" ");
    append(&mut line, buffer.format(born.edge.dst.0).as_bytes());
    append(&mut line, b"\n");
    line
}

/// The line of an edge: source, destination and the name of its label.
pub(crate) fn edge_line(born: &Born, name: &[u8]) -> Line
    requires { length name.now ≤ MOST_LABEL_BYTES }
    ensures { result.items ≡ edge_bytes born.now.edge.src.0 born.now.edge.dst.0 name.now }
{
    let mut line = ArrayVec::new();
    let mut buffer = Buffer::new();
    append(&mut line, buffer.format(born.edge.src.0).as_bytes());
    append(&mut line, b" ");
    append(&mut line, buffer.format(born.edge.dst.0).as_bytes());
    append(&mut line, b" ");
    append(&mut line, name);
    append(&mut line, b"\n");
    line
}
