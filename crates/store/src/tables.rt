//! What a manifest lists of the partitions that were put so far.
use dest_map::DestMap;
use manifest_codec::PartList;

/// The partitions that were put so far, and how many edges lead from each into each interval.
#[derive(Drop)]
pub(crate) struct Tables {
    pub parts: PartList,
    pub map: DestMap,
}
