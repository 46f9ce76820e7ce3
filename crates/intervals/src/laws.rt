ghost use Rattle.std.specs.Prelude.{◌≡◌, ◌+◌, ◌<◌, ℕ, List, length, nat_le, if◌then◌else◌};
ghost use Rattle.std.specs.List.{insert};
ghost use Rattle.intervals.specs.Bounds.{IsCut, vertices_of, LiesIn, interval_of};

/// Each vertex below their number lies in one interval and no other, and no further vertex lies in any.
pub fn each_vertex_in_one_interval()
    ensures each { (ends : List ℕ) (v : ℕ) → IsCut ends → v < vertices_of ends → LiesIn ends (interval_of ends v) v }
    ensures one { (ends : List ℕ) (i v : ℕ) → IsCut ends → LiesIn ends i v → interval_of ends v ≡ i }
    ensures below { (ends : List ℕ) (i v : ℕ) → IsCut ends → LiesIn ends i v → v < vertices_of ends }
{}

/// A cut more within an interval leaves the vertices, and each one from there on lies in an interval of the next number.
pub fn split_numbers_the_rest_anew()
    ensures vertices { (ends : List ℕ) (i at : ℕ) → i < length ends → vertices_of (insert ends i at) ≡ vertices_of ends }
    ensures numbers { (ends : List ℕ) (i at v : ℕ) → interval_of (insert ends i at) v ≡ interval_of ends v + (if nat_le at v then 1 else 0) }
{}
