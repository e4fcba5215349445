use crate::status::Status;
use ug_drafts::Cause;

/// Why a file is refused: of its first fault the line, counted from 1, or 0 for an empty text, and
/// the cause.
#[derive(Clone, Copy)]
pub struct Refusal {
    pub line: u64,
    pub cause: Cause,
}

/// How a run of the program ended, and why its file was refused, if it was. For a best point that
/// is not an answer yet, of a run that continues or of a checkpoint, the lines of the columns that
/// are not 0, if there is one and memory sufficed.
#[derive(Drop)]
pub struct Ran {
    pub status: Status,
    pub refusal: Option<Refusal>,
    pub best: Option<Vec<u8>>,
}
