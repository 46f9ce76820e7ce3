//! Group numbers: whole numbers below 2^64 in groups of 7 bits, the least significant group first, as in LEB128.
//!
//! Each byte but the last has bit 7 set. The last byte isn't 0 unless it is the only one, so each number has one
//! spelling.
#![tactic(auto)]

mod laws;
mod reading;
mod spelling;

pub use laws::{
    bytes_behind_change_nothing, no_spelling_begins_another, one_to_ten_bytes, reading_is_spelling,
};
pub use reading::{NumberRead, is_group_whole, read_group};
pub use spelling::put_group;
