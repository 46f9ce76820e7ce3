//! Which of its images a crash leaves.

/// Which of its images a crash leaves of a disk in memory: what a read gives, what the last sync
/// kept, or one in which each free length and byte is drawn from a number.
#[derive(Clone, Copy, Debug, PartialEq, Eq)]
pub enum CrashChoice {
    AsRead,
    AsSynced,
    Drawn(u64),
}
