ghost use Rattle.std.specs.Prelude.{◌≡◌, ◌^◌, ◌<◌, ◌≤◌, length, sum, nat_le, IfOk, OnOk, OnErr};
ghost use Rattle.std.specs.List.{insert};
ghost use Rattle.intervals.specs.Bounds.{low_of, high_of, IsCut, vertices_of, LiesIn, interval_of, whole_of};
ghost use Rattle.intervals.specs.DegreeCut.{IsCutByDegree, most_intervals};

use crate::degrees::ends_by_degrees;
use std::alloc::{AllocError, Global};
use std::marker::Model;

/// The vertices from 0 to before some number, cut into intervals that are not empty.
///
/// The intervals have numbers from 0 on, in the order of their vertices. Contracts see them as the
/// list of their ends, an end being the vertex behind its interval.
#[derive(Drop)]
pub struct Intervals {
    ends: Vec<u32>,
}

impl Model for Intervals {
    ghost use Rattle.std.specs.Prelude.{List, ℕ};
    ghost use Rattle.intervals.specs.Bounds.{IsCut};

    ghost Value = { List ℕ };

    ghost view = { λ v. v.ends.items };

    ghost invariant = { λ v. IsCut v.ends.items };
}

impl Intervals {
    /// One interval with the vertices from 0 to `n - 1`, and none where `n` is 0.
    pub fn whole(alloc: Global, n: u32) -> Result<Intervals, AllocError>
        ensures { IfOk result (λ v. v ≡ whole_of n) }
    {
        let mut ends = Vec::new(alloc);
        if n > 0 {
            ends.push(n)?;
        }
        Ok(Intervals { ends })
    }

    /// The vertices of these counts, in at most 256 intervals.
    ///
    /// An interval takes its first vertex, then each next one while the sum of its counts with it is
    /// at most `limit`. The 256th takes all the rest.
    pub fn from_degrees(alloc: Global, counts: &[u64], limit: u64) -> Result<Intervals, AllocError>
        requires vertices { length counts.now ≤ 16777216 }
        requires sum { sum counts.now < 2 ^ 64 }
        ensures { IfOk result (IsCutByDegree counts.now limit) }
    {
        let ends = ends_by_degrees(alloc, counts, limit)?;
        Ok(Intervals { ends })
    }

    /// The intervals that end before these vertices.
    pub fn of_ends(alloc: Global, ends: &[u32]) -> Result<Intervals, AllocError>
        requires { IsCut ends.now }
        ensures { IfOk result (λ v. v ≡ ends.now) }
    {
        Ok(Intervals {
            ends: ends.to_vec(alloc)?,
        })
    }

    /// How many intervals there are.
    pub fn len(&self) -> usize
        ensures len { result ≡ length self.now }
        ensures cut { IsCut self.now }
    {
        self.ends.len()
    }

    /// The number of the one interval in which the vertex lies. A binary search.
    pub fn find(&self, v: u32) -> usize
        requires { v < vertices_of self.now }
        ensures lies { LiesIn self.now result v }
        ensures number { result ≡ interval_of self.now v }
    {
        self.ends.as_slice().partition_point(
            |end: &u32| -> bool
                ensures { result ≡ nat_le end.now v }
            { *end <= v },
        )
    }

    /// The first vertex of an interval, and the vertex behind it.
    pub fn bounds(&self, i: usize) -> (u32, u32)
        requires { i < length self.now }
        ensures low { result.0 ≡ low_of self.now i }
        ensures high { result.1 ≡ high_of self.now i }
        ensures order { result.0 < result.1 }
    {
        let low = if i == 0 { 0 } else { self.ends[i - 1] };
        (low, self.ends[i])
    }

    /// Cuts interval `i` before the vertex `at`, which lies within it. The intervals behind it move up
    /// by one number. After `AllocError` the intervals are as they were.
    pub fn split(&mut self, i: usize, at: u32) -> Result<(), AllocError>
        requires number { i < length self.old }
        requires few { length self.old < most_intervals }
        requires low { low_of self.old i < at }
        requires high { at < high_of self.old i }
        ensures ok { OnOk result (self.new ≡ insert self.old i at) }
        ensures err { OnErr result (self.new ≡ self.old) }
    {
        self.ends.insert(i, at)?;
        Ok(())
    }
}
