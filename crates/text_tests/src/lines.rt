//! Edge lines and edge files.
use crate::fixtures::named;
use edge_text::{EdgeFault, EdgeReader, EdgesFault, print_edge, read_edge_line, read_edges};
use graph_words::{LabelId, is_label};
use io_edge::{InputKind, MemInputs, MemSink, lines_of_pieces};
use label_table::LabelTable;
use std::alloc::{AllocError, Global};
use std::test::Fail;

// The numbers and the label of a line that has an edge, or the fault.
fn read(line: &[u8]) -> Result<Option<(u32, u32, &[u8])>, EdgeFault> {
    let said = read_edge_line(line)?;
    Ok(said.map(|raw| (raw.src, raw.dst, raw.label)))
}

#[test]
fn an_edge_line_is_read_or_refused_by_its_first_fault(rt: HostRuntime) {
    let longest = [b'a'; 255];
    for (line, said) in [
        (
            b"16777215 0 a".as_slice(),
            Ok(Some((16_777_215, 0, b"a".as_slice()))),
        ),
        (b"\t007  1 a/ ", Ok(Some((7, 1, b"a/")))),
        (b"# 0 1 a", Ok(None)),
        (b" ", Ok(None)),
        (b"16777216 0 a", Err(EdgeFault::BadSource)),
        (b"0 x a", Err(EdgeFault::BadDestination)),
        (b"x y", Err(EdgeFault::WrongCount)),
        (b"x y a b", Err(EdgeFault::WrongCount)),
        (b"0 1 \x7f", Err(EdgeFault::BadLabel)),
    ] {
        assert!(rt; read(line) == said);
    }
    assert!(rt; is_label(&longest));
    assert!(rt; !is_label(&[b'a'; 256]));
}

// Two pieces of a text.
fn two_pieces(alloc: Global, front: &[u8], back: &[u8]) -> Result<Vec<Vec<u8>>, AllocError> {
    let mut pieces = Vec::new(alloc);
    for piece in [front, back] {
        pieces.push(piece.to_vec(alloc)?)?;
    }
    Ok(pieces)
}

fn are_lines(lines: &[Vec<u8>], wanted: &[&[u8]]) -> bool {
    lines.len() == wanted.len() && lines.iter().zip(wanted).all(|(l, w)| l.as_slice() == *w)
}

#[test]
fn a_line_end_may_be_cut_in_two(rt: HostRuntime) -> Result<(), Fail> {
    let pieces = two_pieces(rt.alloc(), b"ab\r", b"\nc")?;
    let lines = lines_of_pieces(rt.alloc(), &pieces)?;
    assert!(rt; are_lines(&lines, &[b"ab", b"c"]));
    Ok(())
}

// Whether a line of so many bytes, with or without its end, is a line, however it is cut in two.
fn is_a_line(alloc: Global, len: usize, end: &[u8], cut: usize) -> Result<bool, AllocError> {
    let mut text = vec![in alloc; b'a'; len]?;
    text.extend_from_slice(end)?;
    let (front, back) = text.as_slice().split_at(cut.min(text.len()));
    let pieces = two_pieces(alloc, front, back)?;
    match lines_of_pieces(alloc, &pieces) {
        Ok(lines) => Ok(lines.len() == 1),
        Err(_) => Ok(false),
    }
}

#[test]
fn a_line_has_4096_bytes_at_most_however_it_is_cut(rt: HostRuntime) -> Result<(), Fail> {
    for cut in 0..4098 {
        assert!(rt; is_a_line(rt.alloc(), 4096, b"\n", cut)?, "cut at {cut}");
        assert!(rt; !is_a_line(rt.alloc(), 4097, b"", cut)?, "cut at {cut}");
    }
    Ok(())
}

fn one_file(alloc: Global, text: &[u8]) -> Result<MemInputs, AllocError> {
    Ok(MemInputs::new(vec![in alloc; named(alloc, "e", text)?]?))
}

// How many edges an edge file has, and its labels.
fn edges_and_labels(alloc: Global, text: &[u8]) -> Result<(usize, LabelTable), EdgesFault> {
    let mut table = LabelTable::new(alloc);
    let mut inputs = one_file(alloc, text)?;
    let edges = read_edges(alloc, &mut inputs, "e", &mut table)?;
    Ok((edges.as_slice().len(), table.copy()?))
}

// Whether the labels are a and b.
fn are_a_and_b(table: &LabelTable) -> bool {
    table.len() == 2
        && table.number_of(b"b").is_some_and(|l| l.0 == 1)
        && table.number_of(b"c").is_none()
        && table.name_of(LabelId(0)) == Some(b"a".as_slice())
}

// A carriage return, tabs, a remark, a blank line and a last line without its line feed.
#[test]
fn a_file_is_read_with_its_labels_numbered(rt: HostRuntime) -> Result<(), Fail> {
    let (edges, table) = edges_and_labels(rt.alloc(), b"0 1 a\r\n0\t1  a\n# note\n\n 2 4 b")?;
    assert_eq!(rt; edges, 3);
    assert!(rt; are_a_and_b(&table));
    Ok(())
}

#[test]
fn a_file_is_refused_by_the_first_line_with_a_fault(rt: HostRuntime) {
    let refused = edges_and_labels(rt.alloc(), b"0 1 a\n0 1\n");
    let wanted = EdgesFault::Text {
        line: 2,
        kind: InputKind::WrongCount,
    };
    assert!(rt; refused.is_err_and(|fault| fault == wanted));
}

// How many edges each of two pieces of a file gives, and how many labels both have.
fn edges_of_pieces(
    alloc: Global,
    front: &[u8],
    back: &[u8],
) -> Result<(usize, usize, usize), EdgesFault> {
    let mut reader = EdgeReader::new(alloc, LabelTable::new(alloc), 0)?;
    let mut edges = Vec::new(alloc);
    reader.feed(front, &mut edges)?;
    let early = edges.len();
    edges.clear();
    reader.feed(back, &mut edges)?;
    reader.finish(&mut edges)?;
    Ok((early, edges.len(), reader.table().len()))
}

// A line is cut between two pieces, and the edges of the first piece are gone when the second comes.
#[test]
fn edges_may_be_taken_away_between_pieces(rt: HostRuntime) {
    let counts = edges_of_pieces(rt.alloc(), b"0 1 a\n1 ", b"2 b\n3 4 a");
    assert!(rt; counts == Ok((1, 2, 2)));
}

#[test]
fn an_edge_is_printed_as_one_line(rt: HostRuntime) {
    let mut sink = MemSink::new(rt.alloc());
    assert!(rt; is_label(b"a"));
    assert!(rt; print_edge(&mut sink, 12, 0, b"a").is_ok());
    assert_eq!(rt; sink.bytes(), b"12 0 a\n".as_slice());
}
