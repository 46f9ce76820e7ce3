//! Lines, as a sink takes them.
ghost use Rattle.std.specs.Prelude.{◌++◌, ◌∷◌, []};
ghost use Rattle.faults.specs.Counts.{HasCause};
ghost use Rattle.io_edge.specs.Devices.{Takes};

use crate::{Failed, Sink};

/// Writes the bytes of a line, and a line feed.
///
/// At `Failed` the sink has taken a prefix of them.
pub fn write_line<S: Sink>(sink: &mut S, line: &[u8]) -> Result<(), Failed>
    ensures taken { Takes (S.told sink.old) (S.told sink.new) result (line.now ++ 10 ∷ []) }
    ensures cause { HasCause (S.faults sink.old) (S.faults sink.new) result }
{
    sink.write(line)?;
    sink.write(b"\n")
}
