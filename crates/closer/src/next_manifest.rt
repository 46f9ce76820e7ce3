//! The next manifest is made of the store's.
ghost use Rattle.std.specs.Prelude.{◌≡◌, ◌≢◌, ◌&&◌, ◌+◌, ◌*◌, ◌^◌, ◌<◌, ◌≤◌, ℕ, IfOk, All, length, slice_index_or, if◌then◌else◌};
ghost use Rattle.closing_machine.specs.Machine.{is_among};
ghost use Rattle.dest_map.specs.Table.{counts_of};
ghost use Rattle.pair_sched.specs.Marks.{joined_of};
ghost use Rattle.manifest_switch.specs.Slots.{next_generation};
ghost use Rattle.store_law.specs.Steps.{IsFree};
ghost use Rattle.open_store.specs.Store.{IsOpenStore};
ghost use Rattle.closer.specs.NextManifest.{IsMarked, Refiles};

use dest_map::DestMap;
use manifest_codec::{Manifest, PartEntry, PartList};
use open_store::Store;
use pair_sched::Marks;
use std::alloc::{AllocError, Global};

// Marks the pairs among partitions `i` and `j` as joined below a round.
fn mark_pairs(marks: &mut Marks, i: usize, j: usize, round: u64)
    requires i { i < marks.old.0 }
    requires j { j < marks.old.0 }
    requires rises { (a b : ℕ) → joined_of marks.old a b ≤ round }
    ensures size { marks.new.0 ≡ marks.old.0 }
    ensures joined { (a b : ℕ) → joined_of marks.new a b ≡ (if is_among i j a && is_among i j b then round else joined_of marks.old a b) }
    ensures newest { marks.new.2 ≡ marks.old.2 }
    ensures rows { length marks.new.1 ≡ marks.new.0 * marks.new.0 }
{
    marks.mark_joined(i, i, round);
    marks.mark_joined(i, j, round);
    marks.mark_joined(j, i, round);
    marks.mark_joined(j, j, round);
    let _size = marks.len();
}

// The generation that follows.
fn generation_after(generation: u8) -> u8
    requires { generation ≤ 2 }
    ensures { result ≡ next_generation generation }
{
    (generation + 1) % 3
}

/// The store's manifest with the next generation, so many rounds later, in which the pairs among
/// partitions `i` and `j` are marked as joined.
pub(crate) fn marked(store: &Store, i: usize, j: usize, rounds: u64) -> Result<Manifest, AllocError>
    requires i { i < length store.now.manifest.parts }
    requires j { j < length store.now.manifest.parts }
    requires room { store.now.manifest.round + rounds < 2 ^ 64 }
    ensures marked { IfOk result (IsMarked store.now.manifest i j rounds) }
    ensures store { IsOpenStore store.now }
{
    let mut next = store.manifest().copy()?;
    next.generation = generation_after(next.generation);
    next.round += rounds;
    mark_pairs(&mut next.marks, i, j, next.round);
    Ok(next)
}

/// The partitions, of which number `i` has another file. It takes no memory.
pub(crate) fn with_file(parts: PartList, i: usize, file: u32) -> PartList
    requires { i < length parts }
    ensures { Refiles i file parts result }
{
    let mut entries = parts.into_vec();
    entries[i] = PartEntry {
        hi: entries[i].hi,
        file,
    };
    PartList::of(entries)
}

/// The map, in which row `i` is another one. It takes no memory.
pub(crate) fn with_row(map: DestMap, i: usize, row: &[u64]) -> DestMap
    requires i { i < map.0 }
    requires row { length row.now ≡ map.0 }
    ensures size { result.0 ≡ map.0 }
    ensures rows { length result.1 ≡ map.0 * map.0 }
    ensures here { (b : ℕ) → b < map.0 → counts_of result i b ≡ slice_index_or row.now b 0 }
    ensures others { (x b : ℕ) → x ≢ i → counts_of result x b ≡ counts_of map x b }
{
    let size = map.len();
    let mut counts = map.into_counts();
    for (j, count) in row.iter().enumerate() {
        counts[i * size + j] = *count;
    }
    DestMap::of_counts(size, counts)
}

/// A file for a partition: neither the store's manifest nor the one that is made names it.
pub(crate) fn file_for(alloc: Global, store: &Store, next: &Manifest) -> Result<u32, AllocError>
    requires { length next.now.parts ≤ 256 }
    ensures free { IfOk result (IsFree store.now.manifest) }
    ensures untaken { IfOk result (λ f. All (λ p. p.file ≢ f) next.now.parts) }
    ensures within { IfOk result (λ f. f < 1024) }
{
    let parts = next.parts.as_slice();
    let mut taken = Vec::with_capacity(alloc, parts.len())?;
    for part in parts {
        taken.push(part.file)?;
    }
    Ok(store.free_file(&taken))
}
