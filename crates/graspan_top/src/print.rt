//! The lines of faults.
ghost use Rattle.std.specs.Prelude.{◌≡◌, ◌≤◌, ◌+◌, ◌++◌, length};
ghost use Rattle.io_edge.specs.View.{WriteRose};
ghost use Rattle.arrayvec.specs.ArrayVec.{array_vec_len};
ghost use Rattle.graspan_top.specs.declared.status.Status.TheVariants.{BadStore, InputFault, OtherInput, Unfinished};
ghost use Rattle.graspan_top.specs.Printed.{TakesLine, fault_line};
ghost use Rattle.graspan_top.specs.Names.{file_name as file_name_of, form_name as form_name_of, kind_name as kind_name_of};

use crate::status::Status;
use arrayvec::ArrayVec;
use disk_model::FormKind;
use io_edge::{InputFile, InputKind, Sink};
use itoa::Buffer;

/// More than the longest line of a fault has: three names, two numbers and a line feed.
const LINE_ROOM: usize = 160;

type Line = ArrayVec<u8, LINE_ROOM>;

/// Adds bytes that fit.
fn append(line: &mut Line, bytes: &[u8])
    requires { array_vec_len line.old + length bytes.now ≤ 160 }
    ensures items { line.new.items ≡ line.old.items ++ bytes.now }
    ensures len { array_vec_len line.new ≡ array_vec_len line.old + length bytes.now }
{
    line.try_extend_from_slice(bytes).unwrap();
}

/// The name of a file in a printed fault.
fn file_name(file: InputFile) -> &'static [u8]
    ensures name { result.now ≡ file_name_of file }
    ensures short { length result.now ≤ 9 }
{
    match file {
        InputFile::Grammar => b"grammar",
        InputFile::Edges => b"edges",
        InputFile::Source => b"source",
        InputFile::Proof => b"proof",
        InputFile::Questions => b"questions",
    }
}

/// The name of a kind in a printed fault.
fn kind_name(kind: InputKind) -> &'static [u8]
    ensures name { result.now ≡ kind_name_of kind }
    ensures short { length result.now ≤ 16 }
{
    match kind {
        InputKind::LineTooLong => b"LineTooLong",
        InputKind::TooLong => b"TooLong",
        InputKind::WrongCount => b"WrongCount",
        InputKind::BadSource => b"BadSource",
        InputKind::BadDestination => b"BadDestination",
        InputKind::BadLabel => b"BadLabel",
        InputKind::RightTooLong => b"RightTooLong",
        InputKind::TooManyRules => b"TooManyRules",
        InputKind::TooManyLabels => b"TooManyLabels",
        InputKind::BadByte => b"BadByte",
        InputKind::OpenComment => b"OpenComment",
        InputKind::NameTooLong => b"NameTooLong",
        InputKind::Unexpected => b"Unexpected",
        InputKind::TooDeep => b"TooDeep",
        InputKind::Undeclared => b"Undeclared",
        InputKind::Repeated => b"Repeated",
        InputKind::WrongArguments => b"WrongArguments",
        InputKind::NoValue => b"NoValue",
        InputKind::TooManyVertices => b"TooManyVertices",
        InputKind::BadNode => b"BadNode",
        InputKind::BadStep => b"BadStep",
        InputKind::NoNode => b"NoNode",
        InputKind::TooManyQuestions => b"TooManyQuestions",
    }
}

/// The name of what breaks in a store.
fn form_name(kind: FormKind) -> &'static [u8]
    ensures name { result.now ≡ form_name_of kind }
    ensures short { length result.now ≤ 16 }
{
    match kind {
        FormKind::BadMagic => b"BadMagic",
        FormKind::Short => b"Short",
        FormKind::Extra => b"Extra",
        FormKind::BadNumber => b"BadNumber",
        FormKind::BadLabel => b"BadLabel",
        FormKind::RepeatedLabel => b"RepeatedLabel",
        FormKind::BadParts => b"BadParts",
        FormKind::BadFile => b"BadFile",
        FormKind::BadCount => b"BadCount",
        FormKind::BadMark => b"BadMark",
        FormKind::BadBounds => b"BadBounds",
        FormKind::BadOrder => b"BadOrder",
        FormKind::BadVertex => b"BadVertex",
        FormKind::BadBirth => b"BadBirth",
        FormKind::BadText => b"BadText",
        FormKind::Counts => b"Counts",
        FormKind::Generations => b"Generations",
        FormKind::NoCause => b"NoCause",
    }
}

/// The line of a file's first fault.
fn input_line(file: InputFile, number: u64, kind: InputKind) -> Line
    ensures { result.items ≡ fault_line (InputFault file number kind) }
{
    let mut line = ArrayVec::new();
    let mut buffer = Buffer::new();
    append(&mut line, b"fault input ");
    append(&mut line, file_name(file));
    append(&mut line, b" ");
    append(&mut line, buffer.format(number).as_bytes());
    append(&mut line, b" ");
    append(&mut line, kind_name(kind));
    append(&mut line, b"\n");
    line
}

/// The line of a file that isn't the store's.
fn other_line(file: InputFile, place: u64) -> Line
    ensures { result.items ≡ fault_line (OtherInput file place) }
{
    let mut line = ArrayVec::new();
    let mut buffer = Buffer::new();
    append(&mut line, b"fault other ");
    append(&mut line, file_name(file));
    append(&mut line, b" ");
    append(&mut line, buffer.format(place).as_bytes());
    append(&mut line, b"\n");
    line
}

/// The line of a file of the store that breaks a rule.
fn store_line(file: u32, place: u64, kind: FormKind) -> Line
    ensures { result.items ≡ fault_line (BadStore file place kind) }
{
    let mut line = ArrayVec::new();
    let mut buffer = Buffer::new();
    append(&mut line, b"fault store ");
    append(&mut line, buffer.format(file).as_bytes());
    append(&mut line, b" ");
    append(&mut line, buffer.format(place).as_bytes());
    append(&mut line, b" ");
    append(&mut line, form_name(kind));
    append(&mut line, b"\n");
    line
}

/// The line of a pair with work left.
fn unfinished_line(i: usize, j: usize) -> Line
    ensures { result.items ≡ fault_line (Unfinished i j) }
{
    let mut line = ArrayVec::new();
    let mut buffer = Buffer::new();
    append(&mut line, b"fault unfinished ");
    append(&mut line, buffer.format(i).as_bytes());
    append(&mut line, b" ");
    append(&mut line, buffer.format(j).as_bytes());
    append(&mut line, b"\n");
    line
}

/// A line that is always the same.
fn fixed_line(bytes: &[u8]) -> Line
    requires { length bytes.now ≤ 160 }
    ensures { result.items ≡ bytes.now }
{
    let mut line = ArrayVec::new();
    append(&mut line, bytes);
    line
}

/// The line of a fault, with its line feed. Done and a failed write have none.
fn line_of(status: Status) -> Line
    ensures { result.items ≡ fault_line status }
{
    match status {
        Status::Done | Status::WriteFault => ArrayVec::new(),
        Status::Words => fixed_line(b"fault words\n"),
        Status::InputFault { file, line, kind } => input_line(file, line, kind),
        Status::OtherInput { file, place } => other_line(file, place),
        Status::ReadFault => fixed_line(b"fault read\n"),
        Status::DiskFault => fixed_line(b"fault disk\n"),
        Status::NoMemory => fixed_line(b"fault memory\n"),
        Status::BadStore { file, place, kind } => store_line(file, place, kind),
        Status::NoStore => fixed_line(b"fault no store\n"),
        Status::Unfinished { i, j } => unfinished_line(i, j),
        Status::NotKnown => fixed_line(b"fault not known\n"),
    }
}

/// Prints the line of a fault. Where it can't be written the status stays, so the failure is told by the sink's count alone.
pub(crate) fn print_fault<O: Sink>(out: &mut O, status: Status)
    ensures line { TakesLine (O.told out.old) (O.told out.new) (WriteRose O.Sink out.old out.new) (fault_line status) }
    ensures later { O.faults out.old ≤ O.faults out.new }
{
    let _ = out.write(line_of(status).as_slice());
}
