//! The edge to the outside: inputs, sinks and words, and the lines of a text, whole and in pieces.
#![tactic(auto)]

mod buffer;
mod cutter;
mod devices;
mod lines;
mod mem_inputs;
mod mem_sink;
mod named_bytes;
mod out_sink;
mod pieces;
mod print;
mod step;
mod sure_inputs;
mod whole;
mod word_list;

pub use cutter::LineCutter;
pub use devices::{Failed, Inputs, Sink};
pub use faults::{InputFile, InputKind, LineFault};
pub use lines::{line_of, lines_join, long_texts_have_faults, next_segment, without_line_feed};
pub use mem_inputs::MemInputs;
pub use mem_sink::{MemSink, NullSink};
pub use named_bytes::NamedBytes;
pub use out_sink::OutSink;
pub use pieces::lines_of_pieces;
pub use print::write_line;
pub use step::{CutStep, Fed, Phase};
pub use sure_inputs::SureInputs;
pub use whole::{ReadFault, read_whole};
pub use word_list::WordList;
