//! Files and sinks in memory, and the calls that read and write through them.
use crate::fixtures::named;
use io_edge::{
    Failed, Inputs, MemInputs, MemSink, NamedBytes, NullSink, OutSink, ReadFault, Sink, SureInputs,
    read_whole, write_line,
};
use std::alloc::{AllocError, Global};
use std::test::Fail;

// Two files of one name.
fn two_files(alloc: Global) -> Result<Vec<NamedBytes>, AllocError> {
    Ok(vec![in alloc; named(alloc, "a", b"first")?, named(alloc, "a", b"second")?]?)
}

// A file that takes two pieces to read.
fn long_file(alloc: Global) -> Result<Vec<NamedBytes>, AllocError> {
    let bytes = Vec::from_elem(alloc, 7u8, 70_000)?;
    Ok(vec![in alloc; named(alloc, "long", &bytes)?]?)
}

#[test]
fn the_first_file_of_a_name_counts_and_a_listed_call_fails(rt: HostRuntime) -> Result<(), Fail> {
    let mut inputs = MemInputs::new(two_files(rt.alloc())?);
    inputs.fail_calls(vec![in rt.alloc(); 1]?);
    let mut buf = [0; 8];
    assert_eq!(rt; inputs.read("a", 2, &mut buf), Ok(3));
    assert_eq!(rt; &buf[..3], b"rst".as_slice());
    assert_eq!(rt;
        inputs.read("a", 0, &mut buf),
        Err(Failed),
        "call 1 is listed"
    );
    assert_eq!(rt; inputs.read("a", 5, &mut buf), Ok(0), "the end");
    assert_eq!(rt; inputs.read("b", 0, &mut buf), Err(Failed), "no such name");
    Ok(())
}

#[test]
fn a_read_that_fails_in_mid_stream_is_told(rt: HostRuntime) -> Result<(), Fail> {
    let mut inputs = MemInputs::new(long_file(rt.alloc())?);
    // Calls 0 to 2: the last one finds the end.
    let whole = read_whole(rt.alloc(), &mut inputs, "long", 70_000)?;
    assert_eq!(rt; whole.len(), 70_000);
    let front = read_whole(rt.alloc(), &mut inputs, "long", 9)?;
    assert_eq!(rt; front.len(), 65_536, "one piece passes the limit");
    inputs.fail_calls(vec![in rt.alloc(); 5]?);
    let outcome = read_whole(rt.alloc(), &mut inputs, "long", 70_000);
    assert_eq!(rt; outcome.err(), Some(ReadFault::ReadFailed));
    Ok(())
}

#[test]
fn sure_inputs_have_each_name(rt: HostRuntime) -> Result<(), Fail> {
    let mut inputs = SureInputs::new(two_files(rt.alloc())?);
    let listed = read_whole(rt.alloc(), &mut inputs, "a", 10)?;
    assert_eq!(rt; listed.as_slice(), b"first".as_slice());
    let other = read_whole(rt.alloc(), &mut inputs, "b", 10)?;
    assert_eq!(rt; other.len(), 0);
    Ok(())
}

#[test]
fn a_write_that_fails_in_mid_stream_is_told(rt: HostRuntime) -> Result<(), Fail> {
    let mut sink = MemSink::new(rt.alloc());
    sink.fail_calls(vec![in rt.alloc(); 3]?);
    write_line(&mut sink, b"one")?;
    assert_eq!(rt; write_line(&mut sink, b"two"), Err(Failed));
    assert_eq!(rt; sink.bytes(), b"one\ntwo".as_slice());
    NullSink.write(b"one")?;
    Ok(())
}

#[test]
fn a_full_writer_is_a_failed_write(rt: HostRuntime) -> Result<(), Fail> {
    let mut room = [0; 4];
    let mut sink = OutSink::new(&mut room[..]);
    write_line(&mut sink, b"ab")?;
    assert_eq!(rt; write_line(&mut sink, b"cd"), Err(Failed));
    assert_eq!(rt; &room[..], b"ab\nc".as_slice());
    Ok(())
}
