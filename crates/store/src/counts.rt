//! The edges of a partition are counted by the intervals into which they lead.
ghost use Rattle.std.specs.Prelude.{◌≡◌, ◌≢◌, ◌+◌, ◌++◌, ◌^◌, ◌<◌, ℕ, List, All, length};
ghost use Rattle.graph_words.specs.declared.types.Born.{Born as ABorn};
ghost use Rattle.intervals.specs.Bounds.{IsCut};
ghost use Rattle.dest_map.specs.Table.{counts_of};
ghost use Rattle.dest_map.specs.Counts.{IsCountsOf};
ghost use Rattle.store.specs.NewStore.{IsCounted};

use dest_map::DestMap;
use graph_words::Born;
use intervals::Intervals;

/// Counts the edges of partition `i`, of which none was counted.
pub(crate) fn count_edges(map: &mut DestMap, intervals: &Intervals, i: usize, edges: &[Born])
    requires cut { IsCut intervals.now }
    requires size { map.old.0 ≡ length intervals.now }
    requires each { All (IsCounted intervals.now i) edges.now }
    requires none { (j : ℕ) → counts_of map.old i j ≡ 0 }
    requires few { length edges.now < 2 ^ 64 }
    ensures counts { (before : List ABorn) → IsCountsOf intervals.now before map.old → IsCountsOf intervals.now (before ++ edges.now) map.new }
    ensures others { (a b : ℕ) → a ≢ i → counts_of map.new a b ≡ counts_of map.old a b }
{
    for born in edges {
        map.add(i, intervals.find(born.edge.dst.0));
    }
}
