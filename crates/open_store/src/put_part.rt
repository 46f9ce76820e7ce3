//! Partitions are put into files that no manifest names.
ghost use Rattle.std.specs.Prelude.{◌≡◌, ◌≢◌, ◌<◌, ◌≤◌, ℕ, IsTrue, true, false, Contains, All, length, OnOk, IsErrOf};
ghost use Rattle.faults.specs.Reasons.{HasReason, blames_none};
ghost use Rattle.store_fault.specs.Faults.{why_of};
ghost use Rattle.disk_model.specs.Disk.{Sets};
ghost use Rattle.disk_model.specs.View.{LeavesBy, on_disk};
ghost use Rattle.disk_model.specs.OneFile.{OnlyFile};
ghost use Rattle.partition_file.specs.Spelling.{newest_format, spelling};
ghost use Rattle.store_fault.specs.declared.fault.StoreFault.TheVariants.{NoMemory};
ghost use Rattle.manifest_codec.specs.declared.types.PartEntry.{PartEntry as APartEntry};
ghost use Rattle.store_law.specs.Steps.{IsFree};
ghost use Rattle.open_store.specs.Free.{IsUsed};

use crate::store::Store;
use disk_model::{Disk, rewrite};
use manifest_codec::{FIRST_PART_FILE, PartEntry};
use partition_file::{Partition, encode};
use std::alloc::Global;
use store_fault::StoreFault;

// Whether the file of some partition has the number.
fn is_named(parts: &[PartEntry], file: u32) -> bool
    ensures named { result ≡ true → (p : APartEntry) × Contains parts.now p × (p.file ≡ file) }
    ensures free { result ≡ false → All (λ p. p.file ≢ file) parts.now }
{
    for part in parts {
        if part.file == file {
            return true;
        }
    }
    false
}

// Whether a file is that of some partition, or taken.
fn is_used(parts: &[PartEntry], taken: &[u32], file: u32) -> bool
    ensures used { result ≡ true → IsUsed parts.now taken.now file }
    ensures unnamed { result ≡ false → All (λ p. p.file ≢ file) parts.now }
    ensures untaken { result ≡ false → All (λ f. f ≢ file) taken.now }
{
    is_named(parts, file) || taken.contains(&file)
}

impl Store {
    /// The least number of a file, from 4 on, that the manifest doesn't name and that isn't among
    /// those taken. At most 256 are taken, so that it is below 1,024.
    pub fn free_file(&self, taken: &[u32]) -> u32
        requires { length taken.now ≤ 256 }
        ensures free { IsFree self.now.manifest result }
        ensures untaken { All (λ f. f ≢ result) taken.now }
        ensures least { (file : ℕ) → 4 ≤ file → file < result → IsUsed self.now.manifest.parts taken.now file }
        ensures within { result < 1024 }
    {
        let mut file = FIRST_PART_FILE;
        while is_used(self.manifest.parts.as_slice(), taken, file) {
            file += 1;
        }
        file
    }

    /// Puts a partition into a file, which the manifest doesn't name.
    ///
    /// The file is cut to nothing and written, and there is no sync. Whatever it answers, a crash at
    /// any moment since the start leaves all other files as they were. The bytes are made first, so
    /// that at `NoMemory` no call of the disk was made.
    pub fn put_part<D: Disk>(
        &self,
        alloc: Global,
        disk: &mut D,
        file: u32,
        part: &Partition,
    ) -> Result<(), StoreFault>
        requires free { IsFree self.now.manifest file }
        requires within { file < 1024 }
        ensures any_moment { LeavesBy D.Disk disk.old disk.new (OnlyFile file) }
        ensures written { IsTrue D.tells → OnOk result (Sets file (spelling newest_format part.now) (D.seen disk.old) (D.seen disk.new)) }
        ensures memory { IsErrOf result NoMemory → disk.new ≡ disk.old }
        ensures later { D.faults disk.old ≤ D.faults disk.new }
        ensures cause { HasReason why_of (on_disk D.Disk disk.old disk.new blames_none) result }
    {
        let bytes = encode(alloc, part)?;
        rewrite(disk, file, &bytes)?;
        Ok(())
    }
}
