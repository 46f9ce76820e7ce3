//! Vertices from 0 on, cut into intervals.
#![tactic(auto)]

mod degrees;
mod intervals;
mod laws;

pub use degrees::one_cut_by_degrees;
pub use intervals::Intervals;
pub use laws::{each_vertex_in_one_interval, split_numbers_the_rest_anew};
