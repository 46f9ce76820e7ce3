//! A store's manifest as bytes: what it says of its texts, labels, partitions, counts and marks.
#![tactic(auto)]

mod cells;
mod decoder;
mod encoder;
mod fields;
mod format;
mod labels;
mod laws;
mod parts;
mod prefix_law;
mod types;

pub use decoder::decode;
pub use encoder::encode;
pub use fields::labels_place;
pub use format::{EDGES_FILE, FIRST_PART_FILE, GRAMMAR_FILE};
pub use laws::{
    encode_then_decode, has_bytes, longest_spelling, magics_are_spelled, no_shared_spelling,
    reading_is_spelling, spelling_is_read,
};
pub use prefix_law::more_bytes_change_nothing;
pub use types::{Manifest, ManifestError, ManifestFault, PartEntry, PartList, Version};
