//! Why a call of the system failed, in words.
use crate::line::Line;
use std::io::ErrorKind;

// What the reason is called.
fn reason_text(reason: ErrorKind) -> &'static str {
    match reason {
        ErrorKind::NotFound => "no such file or folder",
        ErrorKind::PermissionDenied => "permission denied",
        ErrorKind::IsADirectory => "it is a folder",
        ErrorKind::NotADirectory | ErrorKind::AlreadyExists => "a part of its path is no folder",
        ErrorKind::StorageFull => "no space is left on the disk",
        ErrorKind::QuotaExceeded => "the quota of disk space is used up",
        ErrorKind::FileTooLarge => "the file would be too large for this disk",
        ErrorKind::ReadOnlyFilesystem => "the disk can only be read",
        ErrorKind::InvalidFilename => "its name is too long or not allowed",
        ErrorKind::FilesystemLoop => "its links lead in a circle",
        ErrorKind::NotSeekable => "it can't be read again from its begin, as a pipe",
        ErrorKind::OutOfMemory => "memory ran out",
        _ => "the system failed",
    }
}

/// The reason behind a colon, where it is known.
pub(crate) fn say_reason(line: &mut Line, reason: Option<ErrorKind>) {
    if let Some(reason) = reason {
        line.text(": ");
        line.text(reason_text(reason));
    }
}
