//! What breaks in a store.

/// The rule that the bytes of a store break: of a file format, or of the store as a whole.
#[derive(Clone, Copy, Debug, PartialEq, Eq)]
pub enum FormKind {
    /// A file does not begin with the mark of its format.
    BadMagic,
    /// The bytes end inside a field.
    Short,
    /// A byte stands behind the last field.
    Extra,
    /// A number is out of its range.
    BadNumber,
    /// A name is no label, or a label's number stands for none.
    BadLabel,
    /// Two named labels have one name.
    RepeatedLabel,
    /// There are too many partitions or none, or their intervals do not cover the vertices in order.
    BadParts,
    /// The file of a partition has a number that no partition may have, or that another one has.
    BadFile,
    /// A count of edges between two partitions is more than there can be.
    BadCount,
    /// A mark is above the round, or a newest birth is not below it.
    BadMark,
    /// A partition file has another interval than its partition.
    BadBounds,
    /// The edges of a row do not ascend.
    BadOrder,
    /// A vertex is none of the graph's.
    BadVertex,
    /// A birth is not below the round.
    BadBirth,
    /// The copy of a text has a fault, or is not the one that was kept.
    BadText,
    /// A partition has other counts, or another newest birth, than the manifest says.
    Counts,
    /// Two open slots have one generation.
    Generations,
    /// An edge is no input, no loop and no join of two that were there before it.
    NoCause,
}
