//! What a disk in memory keeps of a file that was changed since the last sync.
ghost use Rattle.std.specs.Prelude.{◌≡◌, ◌<◌, ◌≤◌, ◌∷◌, [], ◌++◌, ℕ, Some, length, slice_index, false, min, max, IfOk};
ghost use Rattle.std.specs.List.{position, position_or_len};
ghost use Rattle.disk_model.specs.Calls.{touched, IsFileImage};
ghost use Rattle.disk_model.specs.Memory.{file_state, is_of};
ghost use Rattle.disk_model.specs.Sound.{IsSoundFile};
ghost use Rattle.disk_model.specs.Left.{CrashLeaves};

use crate::bytes::copy;
use crate::crash_choice::CrashChoice;
use std::alloc::{AllocError, Global};

/// A file that was changed since the last sync: its number, its bytes then, its least and greatest
/// length since, and the ranges written since.
#[derive(Drop)]
pub(crate) struct Loose {
    pub file: u32,
    pub base: Vec<u8>,
    pub keep: u64,
    pub longest: u64,
    pub ranges: Vec<(u64, u64)>,
}

fn find_place(loose: &[Loose], file: u32) -> Option<usize>
    ensures { result ≡ position (is_of file) loose.now }
{
    loose.iter().position(|x| x.file == file)
}

/// The place of a file among those that were changed, or how many these are where it isn't there.
pub(crate) fn place_of(loose: &[Loose], file: u32) -> usize
    ensures { result ≡ position_or_len (is_of file) loose.now }
{
    find_place(loose, file).unwrap_or(loose.len())
}

#[tactic(auto, unfolding(crate::specs::Calls::touched))]
fn touches(ranges: &[(u64, u64)], place: u64) -> bool
    ensures { result ≡ touched ranges.now place }
{
    let mut rest = ranges;
    while let [range, after @ ..] = rest {
        if range.0 <= place && place - range.0 < range.1 {
            return true;
        }
        rest = after;
    }
    false
}

// The next number of a linear congruence with the multiplier and increment of Knuth's MMIX.
fn next_number(number: u64) -> u64 {
    number
        .wrapping_mul(6_364_136_223_846_793_005)
        .wrapping_add(1_442_695_040_888_963_407)
}

impl Loose {
    /// A file that has these bytes, nothing changed yet.
    pub fn new(alloc: Global, file: u32, base: Vec<u8>) -> Loose
        ensures file { result.file ≡ file }
        ensures base { result.base ≡ base }
        ensures keep { result.keep ≡ length base.items }
        ensures longest { result.longest ≡ length base.items }
        ensures ranges { result.ranges.items ≡ [] }
    {
        let len = base.len() as u64;
        Loose {
            file,
            base,
            keep: len,
            longest: len,
            ranges: Vec::new(alloc),
        }
    }

    /// The ranges with one more.
    pub fn more_ranges(
        &self,
        alloc: Global,
        at: u64,
        len: u64,
    ) -> Result<Vec<(u64, u64)>, AllocError>
        ensures { IfOk result (λ v. v.items ≡ self.now.ranges.items ++ (at, len) ∷ []) }
    {
        let mut v = Vec::new(alloc);
        v.extend_from_slice(&self.ranges)?;
        v.push((at, len))?;
        Ok(v)
    }

    /// Takes in the length that a call gave the file, or would have given it.
    pub fn note_len(&mut self, len: u64)
        ensures { self.new ≡ record self.old { keep = min self.old.keep len; longest = max self.old.longest len } }
    {
        self.keep = self.keep.min(len);
        self.longest = self.longest.max(len);
    }

    /// The same of a call that writes, with the ranges after it.
    pub fn note_write(&mut self, len: u64, ranges: Vec<(u64, u64)>)
        ensures { self.new ≡ record self.old { keep = min self.old.keep len; longest = max self.old.longest len; ranges = ranges } }
    {
        self.note_len(len);
        self.ranges = ranges;
    }

    // The byte that a crash leaves at a place, where this one was drawn.
    fn left_byte(&self, place: u64, drawn: u8) -> u8
        requires { self.now.keep ≤ length self.now.base.items }
        ensures { place < self.now.keep → touched self.now.ranges.items place ≡ false → result ≡ slice_index self.now.base.items place }
    {
        if place < self.keep && !touches(&self.ranges, place) {
            return self.base[place as usize];
        }
        drawn
    }

    // The bytes that a crash leaves: each free length and byte is drawn.
    fn drawn(&self, alloc: Global, seen: &[u8], draw: &mut u64) -> Result<Vec<u8>, AllocError>
        requires { IsSoundFile (file_state seen.now (Some self.now)) }
        ensures { IfOk result (λ v. IsFileImage (file_state seen.now (Some self.now)) v.items) }
    {
        *draw = next_number(*draw);
        let span = (self.longest - self.keep).saturating_add(1);
        let len = self.keep + (*draw >> 8) % span;
        let mut left = Vec::new(alloc);
        for i in 0..len {
            *draw = next_number(*draw);
            left.push(self.left_byte(i, (*draw >> 56) as u8))?;
        }
        Ok(left)
    }

    /// The bytes that a crash leaves of the file, where a read gives `seen`.
    #[tactic(auto, unfolding(crate::specs::Left::CrashLeaves))]
    pub fn left(
        &self,
        alloc: Global,
        seen: &[u8],
        choice: CrashChoice,
        draw: &mut u64,
    ) -> Result<Vec<u8>, AllocError>
        requires { IsSoundFile (file_state seen.now (Some self.now)) }
        ensures { IfOk result (λ v. CrashLeaves choice (file_state seen.now (Some self.now)) v.items) }
    {
        match choice {
            CrashChoice::AsRead => copy(alloc, seen),
            CrashChoice::AsSynced => copy(alloc, &self.base),
            CrashChoice::Drawn(_) => self.drawn(alloc, seen, draw),
        }
    }
}
