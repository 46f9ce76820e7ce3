//! Why calls of the system failed.
use std::io::ErrorKind;

/// The reason of the first call that failed, where one did.
#[derive(Clone, Copy)]
pub(crate) struct Reason {
    kind: Option<ErrorKind>,
}

impl Reason {
    /// No call has failed.
    pub(crate) fn none() -> Self {
        Reason { kind: None }
    }

    /// A call has failed. What fails later often fails for the first one's sake.
    pub(crate) fn note(&mut self, kind: ErrorKind) {
        if self.kind.is_none() {
            self.kind = Some(kind);
        }
    }

    /// The reason.
    pub(crate) fn kind(&self) -> Option<ErrorKind> {
        self.kind
    }
}
