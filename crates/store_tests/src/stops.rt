//! Runs that are stopped or fail at a call of the disk, wherever that is, and are run again.
use crate::fixtures::{PRINTED, RUN, path_says, prints, says};
use disk_model::{CrashChoice, MemDisk};
use std::alloc::Global;
use std::test::Fail;

/// Brackets.
const EDGES: &[u8] = b"0 0 (\n0 1 )\n1 0 )\n";

const GRAMMAR: &[u8] = b"S\nS ( S ) S\n";

/// What a run of them prints in two partitions.
const WHOLE: &[u8] =
    b"vertices 2\npart 0 0 1 7\npart 1 1 2 6\nlabel S 3\nlabel ( 1\nlabel ) 2\nanswer 0 0\nanswer 0 1\nanswer 1 1\ndone\n";

/// What it prints behind them, in whatever partitions.
const SHOWN: &[u8] = b"label S 3\nlabel ( 1\nlabel ) 2\nanswer 0 0\nanswer 0 1\nanswer 1 1\ndone\n";

/// A run in two partitions.
const IN_TWO: [&str; 7] = ["run", "e", "g", "--show", "S", "--part-edges", "1"];

/// A run whose first partition has three edges, as many as it may.
const IN_THREES: [&str; 7] = ["run", "e", "g", "--show", "S", "--part-edges", "3"];

/// A run with another limit.
const IN_FIVES: [&str; 7] = ["run", "e", "g", "--show", "S", "--part-edges", "5"];

/// Whether a run ends with what it shows.
fn shows(alloc: Global, disk: &mut MemDisk, words: &[&str]) -> Result<bool, Fail> {
    let (out, code) = says(alloc, disk, EDGES, GRAMMAR, words)?;
    Ok(code == 0 && out.bytes().ends_with(SHOWN))
}

/// How many calls of the disk a run on a blank one makes.
fn calls_of_a_run(alloc: Global, words: &[&str]) -> Result<u64, Fail> {
    let mut disk = MemDisk::new(alloc)?;
    says(alloc, &mut disk, EDGES, GRAMMAR, words)?;
    Ok(disk.calls())
}

/// The disk of a run that is stopped at the call. None where the run isn't told of it.
fn stopped(alloc: Global, words: &[&str], call: u64) -> Result<Option<MemDisk>, Fail> {
    let mut disk = MemDisk::new(alloc)?;
    disk.stop_from(call);
    let (_, code) = says(alloc, &mut disk, EDGES, GRAMMAR, words)?;
    Ok(if code == 5 { Some(disk) } else { None })
}

/// Whether a run with another limit shows the whole on what a crash leaves.
fn resumes(alloc: Global, disk: &MemDisk, choice: CrashChoice) -> Result<bool, Fail> {
    let mut left = disk.crash(alloc, choice)?;
    shows(alloc, &mut left, &IN_FIVES)
}

/// The same of what is read, of what was synced, and of ten images between.
fn resumes_from_all(alloc: Global, disk: &MemDisk, call: u64) -> Result<bool, Fail> {
    let mut all = resumes(alloc, disk, CrashChoice::AsRead)?;
    all = resumes(alloc, disk, CrashChoice::AsSynced)? && all;
    for draw in 0..10u64 {
        let seed = call.wrapping_mul(10).wrapping_add(draw);
        all = resumes(alloc, disk, CrashChoice::Drawn(seed))? && all;
    }
    Ok(all)
}

/// Whether each run that is stopped at a call is resumed, over the calls from one on in steps of three.
fn resumes_from_each(alloc: Global, words: &[&str], first: u64) -> Result<bool, Fail> {
    let mut all = true;
    for call in 0..calls_of_a_run(alloc, words)? {
        if call % 3 == first {
            let Some(disk) = stopped(alloc, words, call)? else {
                return Ok(false);
            };
            all = resumes_from_all(alloc, &disk, call)? && all;
        }
    }
    Ok(all)
}

#[test]
fn a_run_in_two_partitions_is_resumed_from_call_0_on(rt: HostRuntime) -> Result<(), Fail> {
    assert!(rt; resumes_from_each(rt.alloc(), &IN_TWO, 0)?);
    Ok(())
}

#[test]
fn a_run_in_two_partitions_is_resumed_from_call_1_on(rt: HostRuntime) -> Result<(), Fail> {
    assert!(rt; resumes_from_each(rt.alloc(), &IN_TWO, 1)?);
    Ok(())
}

#[test]
fn a_run_in_two_partitions_is_resumed_from_call_2_on(rt: HostRuntime) -> Result<(), Fail> {
    assert!(rt; resumes_from_each(rt.alloc(), &IN_TWO, 2)?);
    Ok(())
}

#[test]
fn a_run_with_a_full_partition_is_resumed(rt: HostRuntime) -> Result<(), Fail> {
    assert!(rt; resumes_from_each(rt.alloc(), &IN_THREES, 0)?);
    Ok(())
}

/// Whether a run one of whose calls fails is told, and the next one on this disk prints the whole.
fn fails_and_goes_on(alloc: Global, call: u64) -> Result<bool, Fail> {
    let mut disk = MemDisk::new(alloc)?;
    disk.fail_calls(vec![in alloc; call]?);
    let (_, code) = says(alloc, &mut disk, EDGES, GRAMMAR, &IN_TWO)?;
    let again = prints(alloc, &mut disk, EDGES, GRAMMAR, &IN_TWO, (WHOLE, 0))?;
    Ok(code == 5 && again)
}

#[test]
fn a_run_one_of_whose_calls_fails_goes_on(rt: HostRuntime) -> Result<(), Fail> {
    for call in 0..calls_of_a_run(rt.alloc(), &IN_TWO)? {
        assert!(rt; fails_and_goes_on(rt.alloc(), call)?, "call {call}");
    }
    Ok(())
}

/// A run of the brackets is stopped, and on what is left a run of the path. Whether the next run of the
/// path is done with its own closure, or the disk is a store of the brackets, which is whole.
fn is_of_one(alloc: Global, call: u64) -> Result<bool, Fail> {
    let Some(disk) = stopped(alloc, &IN_TWO, call)? else {
        return Ok(false);
    };
    let mut left = disk.crash(alloc, CrashChoice::Drawn(call))?;
    left.stop_from(call);
    let _ = path_says(alloc, &mut left, &RUN)?;
    let mut last = left.crash(alloc, CrashChoice::Drawn(call))?;
    let (out, code) = path_says(alloc, &mut last, &RUN)?;
    if code == 0 {
        return Ok(out.bytes() == PRINTED);
    }
    Ok(code == 3 && shows(alloc, &mut last, &IN_FIVES)?)
}

#[test]
fn other_files_are_run_over_half_written_ones(rt: HostRuntime) -> Result<(), Fail> {
    for call in 0..calls_of_a_run(rt.alloc(), &IN_TWO)? {
        assert!(rt; is_of_one(rt.alloc(), call)?, "stopped at {call}");
    }
    Ok(())
}
