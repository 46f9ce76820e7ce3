//! Intervals, counts and marks.
ghost use Rattle.std.specs.Prelude.{◌≡◌, IfOk};

use dest_map::DestMap;
use intervals::Intervals;
use pair_sched::{Marks, is_dirty, least_dirty, pick};
use std::test::Fail;

// The counts and the limit, and the ends that were worked out by hand.
#[test]
fn intervals_end_where_the_next_count_would_pass_the_limit(rt: HostRuntime) -> Result<(), Fail> {
    let cut = Intervals::from_degrees(rt.alloc(), &[2, 1, 0, 3, 0], 2)?;
    let same = Intervals::of_ends(rt.alloc(), &[1, 3, 4, 5])?;
    assert_eq!(rt; cut.len(), 4);
    assert_eq!(rt; same.len(), 4);
    for (i, bounds) in [(0, 1), (1, 3), (3, 4), (4, 5)].into_iter().enumerate() {
        assert!(rt; i < cut.len() && i < same.len());
        assert_eq!(rt; cut.bounds(i), bounds);
        assert_eq!(rt; same.bounds(i), bounds);
    }
    Ok(())
}

#[test]
fn the_256th_interval_takes_all_the_rest(rt: HostRuntime) -> Result<(), Fail> {
    let cut = Intervals::from_degrees(rt.alloc(), &[1; 300], 1)?;
    assert_eq!(rt; cut.len(), 256);
    assert_eq!(rt; cut.bounds(255), (255, 300));
    Ok(())
}

#[test]
fn a_whole_is_split_and_its_vertices_are_found(rt: HostRuntime) -> Result<(), Fail> {
    let mut cut = Intervals::whole(rt.alloc(), 3)?;
    assert_eq!(rt; cut.len(), 1);
    cut.split(0, 2)?;
    assert_eq!(rt; cut.len(), 2);
    assert_eq!(rt; cut.bounds(0), (0, 2));
    assert_eq!(rt; cut.find(1), 0);
    assert_eq!(rt; cut.find(2), 1);
    Ok(())
}

// Partition 0 has 3 edges into itself and 2 into partition 1, which has 1 edge into 0.
#[test]
fn a_cut_shares_the_counts_of_its_partition(rt: HostRuntime) -> Result<(), Fail> {
    let mut map = DestMap::of_counts(2, [3, 1, 1, 0].to_vec(rt.alloc())?);
    map.add(0, 1);
    assert_eq!(rt; map.count(0, 1), 2);
    let before = map.copy()?;
    map.split(0, &[9, 1], &[9, 0], [1, 2, 0, 0])?;
    assert!(rt; map.counts() == [1, 2, 1, 0, 0, 1, 0, 1, 0].as_slice());
    assert!(rt; before.counts() == [3, 2, 1, 0].as_slice());
    Ok(())
}

/// The map of two partitions with these counts, row after row.
fn map_of(rt: &HostRuntime, counts: &[u64; 4]) -> Result<DestMap, Fail>
    ensures { IfOk result (λ map. map.0 ≡ 2) }
{
    Ok(DestMap::of_counts(2, counts.to_vec(rt.alloc())?))
}

// The pair from 0 into 1 and the pair from 1 into 0 have 5 edges each.
#[test]
fn the_greatest_count_is_picked_and_on_a_tie_the_least_pair(rt: HostRuntime) -> Result<(), Fail> {
    let map = map_of(&rt, &[0, 5, 5, 2])?;
    let mut marks = Marks::zero(rt.alloc(), 2)?;
    assert_eq!(rt; pick(&map, &marks), Some((0, 1)));
    assert_eq!(rt; least_dirty(&map, &marks), Some((0, 1)));
    marks.mark_joined(0, 1, 1);
    assert_eq!(rt; pick(&map, &marks), Some((1, 0)));
    let none = DestMap::zero(rt.alloc(), 0)?;
    let nowhere = Marks::zero(rt.alloc(), 0)?;
    assert_eq!(rt; pick(&none, &nowhere), None);
    Ok(())
}

// The pair from 0 into 1 is joined up to birth 4, so the newest birth 3 leaves it clean and birth 4 doesn't.
#[test]
fn a_pair_is_dirty_where_an_edge_is_not_older_than_its_mark(rt: HostRuntime) -> Result<(), Fail> {
    let map = map_of(&rt, &[1, 1, 0, 1])?;
    let mut marks = Marks::zero(rt.alloc(), 2)?;
    marks.mark_joined(0, 1, 4);
    marks.raise(0, 3);
    assert!(rt; !is_dirty(&map, &marks, 0, 1));
    marks.raise(1, 4);
    assert!(rt; is_dirty(&map, &marks, 0, 1));
    assert!(rt; !is_dirty(&map, &marks, 1, 0));
    Ok(())
}

#[test]
fn children_have_their_parents_marks(rt: HostRuntime) -> Result<(), Fail> {
    let joined = [1, 2, 3, 4].to_vec(rt.alloc())?;
    let newest = [5, 6].to_vec(rt.alloc())?;
    let mut marks = Marks::of_rows(2, joined, newest);
    let before = marks.copy()?;
    marks.split(0, 5, 2)?;
    assert!(rt; marks.joined_rows() == [1, 1, 2, 1, 1, 2, 3, 3, 4].as_slice());
    assert!(rt; marks.newest_rows() == [5, 2, 6].as_slice());
    assert!(rt; before.newest_rows() == [5, 6].as_slice());
    Ok(())
}
