//! Calls that fail and runs that are stopped, one after the other.
use crate::fixtures::{
    EDGES, GRAMMAR, PRINTED, RUN, end_of, path_prints, path_says, two_files, word_list,
};
use disk_model::{MemDisk, NoDisk};
use graspan_top::{Status, graspan};
use io_edge::{MemSink, NullSink, SureInputs};
use std::alloc::Global;
use std::test::Fail;

/// How a run on a blank disk ends whose read with this number fails, and what it prints.
fn failing_read(alloc: Global, call: u64) -> Result<(Status, MemSink), Fail> {
    let words = word_list(alloc, &RUN)?;
    let mut inputs = two_files(alloc, EDGES, GRAMMAR)?;
    inputs.fail_calls(vec![in alloc; call]?);
    let mut disk = MemDisk::new(alloc)?;
    let mut out = MemSink::new(alloc);
    let status = end_of(alloc, &words, &mut inputs, &mut disk, &mut out);
    Ok((status, out))
}

// Two reads of the grammar, and two of the edges.
#[test]
fn a_read_that_fails_is_told(rt: HostRuntime) -> Result<(), Fail> {
    for call in 0..4 {
        let (status, out) = failing_read(rt.alloc(), call)?;
        assert_eq!(rt; status, Status::ReadFault);
        assert_eq!(rt; out.bytes(), b"fault read\n".as_slice());
    }
    Ok(())
}

/// How a run on a disk ends whose write with this number fails, and what it prints.
fn failing_write(alloc: Global, disk: &mut MemDisk, call: u64) -> Result<(Status, MemSink), Fail> {
    let words = word_list(alloc, &RUN)?;
    let mut inputs = two_files(alloc, EDGES, GRAMMAR)?;
    let mut out = MemSink::new(alloc);
    out.fail_calls(vec![in alloc; call]?);
    let status = end_of(alloc, &words, &mut inputs, disk, &mut out);
    Ok((status, out))
}

#[test]
fn a_write_that_fails_in_mid_stream_leaves_a_finished_store(rt: HostRuntime) -> Result<(), Fail> {
    let alloc = rt.alloc();
    let mut disk = MemDisk::new(alloc)?;
    let (status, out) = failing_write(alloc, &mut disk, 1)?;
    assert_eq!(rt; status, Status::WriteFault);
    assert!(rt; PRINTED.starts_with(out.bytes()));
    assert!(rt;
        path_prints(
            alloc,
            &mut disk,
            &["parts"],
            (b"vertices 3\npart 0 0 3 3\nfinished\n".as_slice(), 0)
        )?
    );
    Ok(())
}

/// How many calls of the disk a run on a blank one makes.
fn calls_of_a_run(alloc: Global) -> Result<u64, Fail> {
    let mut disk = MemDisk::new(alloc)?;
    path_says(alloc, &mut disk, &RUN)?;
    Ok(disk.calls())
}

/// Whether a run is told the failed disk, and nothing else fails, where one call of the disk fails, and
/// the next run on this disk prints the whole.
fn is_told(alloc: Global, call: u64) -> Result<bool, Fail> {
    let mut disk = MemDisk::new(alloc)?;
    disk.fail_calls(vec![in alloc; call]?);
    let (out, code) = path_says(alloc, &mut disk, &RUN)?;
    let is_last = out.bytes().ends_with(b"fault disk\n");
    let one = disk.faults() == 1;
    let again = path_prints(alloc, &mut disk, &RUN, (PRINTED, 0))?;
    Ok(is_last && code == 5 && one && again)
}

#[test]
fn each_call_of_the_disk_that_fails_is_told(rt: HostRuntime) -> Result<(), Fail> {
    let calls = calls_of_a_run(rt.alloc())?;
    assert!(rt; 18 < calls, "the import alone takes 18");
    for call in 0..calls {
        assert!(rt; is_told(rt.alloc(), call)?, "call {call}");
    }
    Ok(())
}

#[test]
fn a_disk_that_holds_nothing_has_no_store(rt: HostRuntime) -> Result<(), Fail> {
    let words = word_list(rt.alloc(), &RUN)?;
    let mut inputs = SureInputs::new(Vec::new(rt.alloc()));
    let mut disk = NoDisk::new();
    let status = graspan(rt.alloc(), &words, &mut inputs, &mut disk, &mut NullSink);
    assert_eq!(rt; status, Status::DiskFault);
    assert_eq!(rt; disk.faults(), 1);
    Ok(())
}
