//! A partition of given edges.
ghost use Rattle.std.specs.Prelude.{◌≡◌, ◌↔◌, ◌⊎◌, ◌<◌, ◌^◌, All, Contains, IfOk, length};
ghost use Rattle.graph_words.specs.declared.types.Born.{Born as ABorn};
ghost use Rattle.normal_law.specs.NormalForm.{normal_form};
ghost use Rattle.partition_file.specs.Spelling.{IsPart};
ghost use Rattle.import_text.specs.Given.{IsFrom, IsLoopIn};

use crate::given::{add_loops, born_first, make_once};
use graph_words::Edge;
use normal_form::Normal;
use partition_file::Partition;
use std::alloc::{AllocError, Global};

/// The partition of given edges from an interval and of its loops, each edge once, with birth 0.
pub(crate) fn part_of(
    alloc: Global,
    normal: &Normal,
    lo: u32,
    hi: u32,
    given: Vec<Edge>,
) -> Result<Partition, AllocError>
    requires bounds { lo < hi }
    requires from { All (IsFrom lo hi) given.items }
    ensures bounds { IfOk result (λ p. (p.lo ≡ lo) × (p.hi ≡ hi)) }
    ensures part { IfOk result IsPart }
    ensures edges { IfOk result (λ p. (b : ABorn) → Contains p.edges b
        ↔ ((Contains given.items b.edge ⊎ IsLoopIn (normal_form normal.now) lo hi b.edge) × (b.birth ≡ 0))) }
    ensures few { IfOk result (λ p. length p.edges < 2 ^ 64) }
{
    let mut edges = given;
    add_loops(&mut edges, normal, lo, hi)?;
    make_once(&mut edges);
    let born = born_first(alloc, &edges)?;
    Ok(Partition::new(lo, hi, born))
}
