//! The words that the program was called with.
use io_edge::WordList;
use std::alloc::AllocError;
use std::env;
use std::rt::Env;

/// The words behind the program's name: the folder of the store, and those behind it.
#[derive(Drop)]
pub(crate) struct ProgramWords {
    pub(crate) store: Option<String>,
    pub(crate) command: WordList,
}

/// The words that the system gives.
///
/// Where it doesn't give them as text, as where a word isn't UTF-8, there are none, so that they have no reading.
pub(crate) fn program_words<R: Env + AllocGlobal>(rt: &R) -> Result<ProgramWords, AllocError> {
    let mut store = None;
    let mut command = WordList::new(rt.alloc());
    if let Ok(args) = env::args(rt) {
        for word in args.skip(1) {
            if store.is_none() {
                store = Some(word);
            } else {
                command.push(word.as_str())?;
            }
        }
    }
    Ok(ProgramWords { store, command })
}
