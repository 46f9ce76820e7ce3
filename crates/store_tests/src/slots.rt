//! The two slots of a manifest.
use crate::fixtures::SLOT;
use disk_model::{Disk, FormKind, MemDisk};
use manifest::{Found, OpenFault, Slot, current};
use std::alloc::Global;
use std::test::Fail;

/// The place of the generation.
const GENERATION: usize = 5;

/// The slot with another generation.
fn slot_of_generation(generation: u8) -> [u8; 76] {
    let mut file = SLOT;
    file[GENERATION] = generation;
    file
}

/// What a store holds: the slot and its manifest's generation, that none is open, or where it is broken.
#[derive(Clone, Copy, Debug, PartialEq, Eq)]
enum Held {
    Blank,
    At(Slot, u8),
    Bad(u32, u64, FormKind),
    Failed,
}

fn look(alloc: Global, disk: &mut MemDisk) -> Held {
    match current(alloc, disk) {
        Ok(Found::Blank) => Held::Blank,
        Ok(Found::At(slot, manifest)) => Held::At(slot, manifest.generation),
        Err(OpenFault::BadStore { file, place, kind }) => Held::Bad(file, place, kind),
        Err(OpenFault::DiskFault | OpenFault::NoMemory) => Held::Failed,
    }
}

// What a store with these bytes in its slots holds.
fn held_by(alloc: Global, first: &[u8], second: &[u8]) -> Result<Held, Fail> {
    let mut disk = MemDisk::new(alloc)?;
    disk.write_at(0, 0, first)?;
    disk.write_at(1, 0, second)?;
    Ok(look(alloc, &mut disk))
}

#[test]
fn the_younger_of_two_open_slots_is_current(rt: HostRuntime) -> Result<(), Fail> {
    let early = slot_of_generation(0);
    let late = slot_of_generation(2);
    let cut = &SLOT[..75];
    let none = b"".as_slice();
    for (first, second, held) in [
        (none, none, Held::Blank),
        (b"\x01", b"\x00G", Held::Blank),
        (none, &SLOT, Held::At(Slot::One, 1)),
        (&early, &SLOT, Held::At(Slot::One, 1)),
        (&late, &SLOT, Held::At(Slot::Zero, 2)),
        (&SLOT, &SLOT, Held::Bad(1, 5, FormKind::Generations)),
        (none, cut, Held::Bad(1, 68, FormKind::Short)),
        (b"\x01\x00", cut, Held::Bad(0, 1, FormKind::Short)),
    ] {
        assert_eq!(rt; held_by(rt.alloc(), first, second)?, held);
    }
    Ok(())
}
