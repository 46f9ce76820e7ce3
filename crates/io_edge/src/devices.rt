//! The outside as traits: files that are read by name, and a sink that takes bytes.
ghost use Rattle.std.specs.Prelude.{◌≡◌, ◌+◌, ◌<◌, ◌≤◌, ◌^◌, ℕ, List, Option, Some, length, IfOk};
ghost use Rattle.faults.specs.Counts.{HasCause};
ghost use Rattle.io_edge.specs.Devices.{GivesBytes, Takes};

/// A call of the outside has failed. The count of faults of what was called says so too.
#[derive(Clone, Copy, Debug, PartialEq, Eq)]
pub struct Failed;

/// Files that are read by their names.
///
/// An implementation may *tell* the bytes of a name to contracts; real files tell nothing.
/// Code that is generic over `Inputs` can't raise the count of faults by itself.
pub trait Inputs {
    /// The bytes of a name, where they are told.
    ghost told: { Self → List ℕ → Option (List ℕ) };

    /// How often reads of a name have failed: a `u64` that stays at its greatest value.
    ghost faults: { Self → List ℕ → ℕ };

    /// Reads bytes of a name from a place on, counted from 0, and answers how many.
    ///
    /// A buffer that isn't empty gets at least one byte, but none at or past the end of the bytes.
    /// `Failed` comes only where the count of this name rose; a name that isn't there fails.
    fn read(&mut self, name: &str, at: u64, buf: &mut [u8]) -> Result<usize, Failed>
        requires { at + length buf.old < 2 ^ 64 }
        ensures count { IfOk result (λ n. n ≤ length buf.new) }
        ensures bytes { IfOk result (λ n. (file : List ℕ) → told self.old name.now ≡ Some file → GivesBytes file at buf.new n) }
        ensures kept { told self.new ≡ told self.old }
        ensures others { (other : List ℕ) → faults self.old other ≤ faults self.new other }
        ensures cause { HasCause (faults self.old name.now) (faults self.new name.now) result };
}

/// What takes printed bytes.
pub trait Sink {
    /// The bytes taken so far, where they are told.
    ghost told: { Self → Option (List ℕ) };

    /// How often a write has failed: a `u64` that stays at its greatest value.
    ghost faults: { Self → ℕ };

    /// Takes the whole piece, or fails and has taken a prefix of it.
    fn write(&mut self, bytes: &[u8]) -> Result<(), Failed>
        ensures taken { Takes (told self.old) (told self.new) result bytes.now }
        ensures cause { HasCause (faults self.old) (faults self.new) result };
}
