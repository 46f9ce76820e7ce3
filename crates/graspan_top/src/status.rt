//! What a command answers.
use command_words::WordsFault;
use disk_model::FormKind;
use io_edge::{InputFile, InputKind};
use query_text::AnswerFault;
use store::StoreFault;

/// How a command ended, with the number that the program ends with.
#[derive(Clone, Copy, Debug, PartialEq, Eq)]
pub enum Status {
    /// 0: every line was printed.
    Done,
    /// 1: the words have no reading.
    Words,
    /// 2: the first fault of this file's text: its line, counted from 1, and its kind.
    InputFault {
        file: InputFile,
        line: u64,
        kind: InputKind,
    },
    /// 3: the store is of another text. The file differs from the store's copy first at this place, in bytes from 0.
    OtherInput {
        file: InputFile,
        place: u64,
    },
    /// 4: a read of an input failed.
    ReadFault,
    /// 5: a call of the disk failed.
    DiskFault,
    /// 6: a write to the output failed.
    WriteFault,
    /// 7: memory was wanted.
    NoMemory,
    /// 8: the bytes of a file of the store break a rule, at this place, in bytes from 0.
    BadStore {
        file: u32,
        place: u64,
        kind: FormKind,
    },
    /// 9: there is no store.
    NoStore,
    /// 10: the store isn't closed yet. This is the least pair of partitions with work left.
    Unfinished {
        i: usize,
        j: usize,
    },
    /// 11: the store has no such label, or no such vertex.
    NotKnown,
}

impl Status {
    ghost use Rattle.std.specs.Prelude.{◌≡◌};
    ghost use Rattle.graspan_top.specs.Codes.{code_of};

    /// The exit status of the program.
    pub fn code(&self) -> u8
        ensures { result ≡ code_of self.now }
    {
        match self {
            Status::Done => 0,
            Status::Words => 1,
            Status::InputFault { .. } => 2,
            Status::OtherInput { .. } => 3,
            Status::ReadFault => 4,
            Status::DiskFault => 5,
            Status::WriteFault => 6,
            Status::NoMemory => 7,
            Status::BadStore { .. } => 8,
            Status::NoStore => 9,
            Status::Unfinished { .. } => 10,
            Status::NotKnown => 11,
        }
    }
}

impl From<WordsFault> for Status {
    ghost use Rattle.std.specs.Prelude.{◌≡◌};
    ghost use Rattle.graspan_top.specs.Faults.{of_words};

    ghost from_gives = { λ f s. s ≡ of_words f };

    fn from(fault: WordsFault) -> Status {
        match fault {
            WordsFault::Words => Status::Words,
            WordsFault::NoMemory => Status::NoMemory,
        }
    }
}

impl From<StoreFault> for Status {
    ghost use Rattle.std.specs.Prelude.{◌≡◌};
    ghost use Rattle.graspan_top.specs.Faults.{of_store};

    ghost from_gives = { λ f s. s ≡ of_store f };

    fn from(fault: StoreFault) -> Status {
        match fault {
            StoreFault::ReadFault => Status::ReadFault,
            StoreFault::DiskFault => Status::DiskFault,
            StoreFault::InputFault { file, line, kind } => Status::InputFault { file, line, kind },
            StoreFault::OtherInput { file, place } => Status::OtherInput { file, place },
            StoreFault::BadStore { file, place, kind } => Status::BadStore { file, place, kind },
            StoreFault::NoMemory => Status::NoMemory,
        }
    }
}

impl From<AnswerFault> for Status {
    ghost use Rattle.std.specs.Prelude.{◌≡◌};
    ghost use Rattle.graspan_top.specs.Faults.{of_answer};

    ghost from_gives = { λ f s. s ≡ of_answer f };

    fn from(fault: AnswerFault) -> Status {
        match fault {
            AnswerFault::DiskFault => Status::DiskFault,
            AnswerFault::BadStore { file, place, kind } => Status::BadStore { file, place, kind },
            AnswerFault::WriteFault => Status::WriteFault,
            AnswerFault::NoMemory => Status::NoMemory,
        }
    }
}
