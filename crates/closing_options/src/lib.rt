//! What a run is asked for: its numbers.
#![tactic(auto)]

/// How a store is made and closed. For now an import cuts its partitions by `part_edges`, and one worker joins whole
/// pairs, so the other two numbers are not used yet.
#[derive(Clone, Copy, Debug, PartialEq, Eq)]
pub struct RunOptions {
    /// How many workers join at the same time.
    pub workers: u32,
    /// How many edges a partition may have before it is cut in two.
    pub part_edges: u64,
    /// How many edges may be loaded before rounds are stopped.
    pub budget: u64,
}
