ghost use Rattle.std.specs.Prelude.{◌≡◌, option_map};
ghost use Rattle.ug_top.specs.Ends.{status_of, text_of};
ghost use Rattle.ug_top.specs.Left.{best_of, line_of};

use crate::ran::Refusal;
use crate::status::Status;

/// How a command ended, with the lines to write.
#[derive(Drop)]
pub enum Ended {
    /// With lines that were made, and of a best point that is no answer yet its lines, if there is
    /// one and memory sufficed.
    Lines {
        status: Status,
        text: Vec<u8>,
        best: Option<Vec<u8>>,
    },
    /// With no line.
    Quiet {
        status: Status,
    },
    /// The file states no problem.
    Refused {
        refusal: Refusal,
        text: Vec<u8>,
    },
    /// The source failed.
    ReadFault,
    /// Memory ran out.
    Memory,
}

impl Ended {
    /// The status.
    pub fn status(&self) -> Status
        ensures { result ≡ status_of self.now }
    {
        match self {
            Ended::Lines { status, .. } => *status,
            Ended::Quiet { status } => *status,
            Ended::Refused { .. } => Status::Refused,
            Ended::ReadFault => Status::ReadFault,
            Ended::Memory => Status::Memory,
        }
    }

    /// The lines.
    pub fn text(&self) -> &[u8]
        ensures { result.now ≡ text_of self.now }
    {
        match self {
            Ended::Lines { text, .. } => text.as_slice(),
            Ended::Quiet { .. } => &[],
            Ended::Refused { text, .. } => text.as_slice(),
            Ended::ReadFault => ug_print::read_fault(),
            Ended::Memory => ug_print::memory(),
        }
    }

    /// Why the file was refused, where it was.
    pub fn refusal(&self) -> Option<Refusal>
        ensures { option_map (λ r. r.line) result ≡ line_of self.now }
    {
        match self {
            Ended::Refused { refusal, .. } => Some(*refusal),
            Ended::Lines { .. } | Ended::Quiet { .. } => None,
            Ended::ReadFault | Ended::Memory => None,
        }
    }

    /// The lines of a best point that is no answer yet.
    pub fn into_best(self) -> Option<Vec<u8>>
        ensures { option_map (λ v. v.items) result ≡ best_of self }
    {
        match self {
            Ended::Lines { text, best, .. } => {
                drop(text);
                best
            }
            other => {
                drop(other);
                None
            }
        }
    }
}
