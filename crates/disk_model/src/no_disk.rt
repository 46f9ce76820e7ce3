//! A disk that isn't there.
ghost use Rattle.std.specs.Prelude.{◌≡◌, ℕ, false, [], IsErr};
ghost use Rattle.std.proofs.lemmas.Bool.{false≢true};
ghost use Rattle.faults.specs.Counts.{HasFailed};
ghost use Rattle.disk_model.specs.Disk.{Contents};

use crate::disk::{Disk, Failed};

/// A disk that isn't there: each call fails, and it tells nothing.
///
/// It stands in tests for a real device, of which nothing may be assumed.
#[derive(Drop)]
pub struct NoDisk {
    faults: u64,
}

impl NoDisk {
    /// One that has not failed yet.
    pub fn new() -> NoDisk
        ensures { result.faults ≡ 0 }
    {
        NoDisk { faults: 0 }
    }

    /// How many of its calls failed.
    pub fn faults(&self) -> u64
        ensures { result ≡ self.now.faults }
    {
        self.faults
    }

    fn fail(&mut self) -> Failed
        ensures { HasFailed self.old.faults self.new.faults }
    {
        self.faults = self.faults.saturating_add(1);
        Failed
    }
}

impl Disk for NoDisk {
    ghost tells = { false };

    ghost seen = { λ disk f. [] };

    ghost may_leave = { λ disk c. ⊥ };

    ghost moment = { λ disk. 0 };

    ghost left_since = { λ disk t c. ⊥ };

    ghost faults = { λ disk. disk.faults };

    ghost told = { λ disk c image. absurd image };

    ghost honest = { λ disk tells. absurd (false≢true tells) };

    ghost mixes = { λ disk a b c image. absurd image };

    ghost counts_now = { λ disk t c le image. image };

    ghost only_now = { λ disk c image. image };

    fn len(&mut self, _file: u32) -> Result<u64, Failed>
        ensures fails { IsErr result }
        ensures count { HasFailed self.old.faults self.new.faults }
    {
        Err(self.fail())
    }

    fn read(&mut self, _file: u32, _at: u64, _buf: &mut [u8]) -> Result<usize, Failed>
        ensures fails { IsErr result }
        ensures count { HasFailed self.old.faults self.new.faults }
    {
        Err(self.fail())
    }

    fn write_at(&mut self, _file: u32, _at: u64, _bytes: &[u8]) -> Result<(), Failed>
        ensures fails { IsErr result }
        ensures count { HasFailed self.old.faults self.new.faults }
    {
        Err(self.fail())
    }

    fn cut(&mut self, _file: u32, _len: u64) -> Result<(), Failed>
        ensures fails { IsErr result }
        ensures count { HasFailed self.old.faults self.new.faults }
    {
        Err(self.fail())
    }

    fn sync(&mut self) -> Result<(), Failed>
        ensures fails { IsErr result }
        ensures count { HasFailed self.old.faults self.new.faults }
    {
        Err(self.fail())
    }
}
