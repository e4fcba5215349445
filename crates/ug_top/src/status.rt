ghost use Rattle.std.specs.Prelude.{◌≡◌};
ghost use Rattle.ug_top.specs.Lines.{code_of, status_of_fault};

use ug_restart::StartFault;

/// How a run of the program ended.
#[derive(Clone, Copy, PartialEq, Eq)]
pub enum Status {
    /// The answer was printed, or the checkpoint.
    Answered,
    /// The words are no command.
    Usage,
    /// The file states no problem.
    Refused,
    /// The source failed.
    ReadFault,
    /// The sink failed.
    WriteFault,
    /// The disk failed before the run had begun.
    DiskFault,
    /// All solvers in processes are lost, and nodes are left.
    Stranded,
    /// As many reports were received as may be, and nodes are left.
    Limited,
    /// Memory ran out.
    Memory,
    /// There is no checkpoint.
    NoCheckpoint,
    /// The checkpoint is of another problem.
    OtherProblem,
    /// A slot is open and spells no image.
    BadImage,
    /// The link to the coordinator failed, or ended early.
    LinkFault,
    /// What came over the link is no order, or none that is due.
    BadFrame,
    /// The run or the sequence of the checkpoint is 2^62 or more.
    Spent,
    /// The gap that is asked for is less than that of the checkpoint.
    SmallerGap,
}

impl Status {
    /// The exit status of the program.
    pub fn code(self) -> u8
        ensures { result ≡ code_of self }
    {
        match self {
            Status::Answered => 0,
            Status::Usage => 2,
            Status::Refused => 3,
            Status::ReadFault => 4,
            Status::WriteFault => 5,
            Status::DiskFault => 6,
            Status::Stranded => 7,
            Status::Limited => 8,
            Status::Memory => 9,
            Status::NoCheckpoint => 10,
            Status::OtherProblem => 11,
            Status::BadImage => 12,
            Status::LinkFault => 13,
            Status::BadFrame => 14,
            Status::Spent => 15,
            Status::SmallerGap => 16,
        }
    }
}

/// The status of a run that does not begin.
pub fn status_of(fault: &StartFault) -> Status
    ensures { result ≡ status_of_fault fault.now }
{
    match fault {
        StartFault::Memory => Status::Memory,
        StartFault::DiskFault => Status::DiskFault,
        StartFault::BadImage { .. } => Status::BadImage,
        StartFault::NoCheckpoint => Status::NoCheckpoint,
        StartFault::OtherProblem { .. } => Status::OtherProblem,
        StartFault::SmallerGap { .. } => Status::SmallerGap,
        StartFault::Spent => Status::Spent,
    }
}
