ghost use Rattle.std.specs.Prelude.{◌↔◌, IsTrue};
ghost use Rattle.row_table.specs.Loaded.{LiesInSpan};

/// The vertices from `lo` to before `hi`.
#[derive(Clone, Copy, Debug, PartialEq, Eq)]
pub struct Span {
    pub lo: u32,
    pub hi: u32,
}

impl Span {
    pub(crate) fn has(self, vertex: u32) -> bool
        ensures { IsTrue result ↔ LiesInSpan self vertex }
    {
        self.lo <= vertex && vertex < self.hi
    }
}
