//! A store's manifest: its bytes, and the two slots that hold them.
//!
//! It hands on `manifest_codec`, what a manifest says and how it is spelled, and `manifest_switch`, which of two slots is
//! current and how another manifest takes its place at once.
#![tactic(auto)]

pub use manifest_codec::{
    Manifest, ManifestError, ManifestFault, PartEntry, PartList, Version, decode, encode,
};
pub use manifest_switch::{
    Found, OpenFault, Slot, SwitchFault, close_gate, close_other, current, open_gate, switch,
    write_body,
};
