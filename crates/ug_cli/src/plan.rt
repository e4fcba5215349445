use ug_branch::Base;

/// The number of solvers, how they work, and the watermarks of the pool.
#[derive(Clone, Copy, PartialEq, Eq)]
pub struct Solvers {
    pub solvers: u32,
    /// Do the solvers begin with a race?
    pub racing: bool,
    /// The base of all work outside a race.
    pub base: Base,
    /// Low watermark: below it open nodes are collected.
    pub low: u32,
    /// High watermark: at it collecting stops.
    pub high: u32,
}

/// When checkpoints are saved, when the run ends, the box and the gap.
#[derive(Clone, Copy, PartialEq, Eq)]
pub struct Limits {
    /// A checkpoint is saved after reports whose numbers are multiples of this, but no sooner than
    /// eight reports for each open node of the save before.
    pub every: u32,
    /// The run ends after this number of reports.
    pub limit: u64,
    /// The bound that replaces infinite bounds of the file.
    pub boxed: Option<u32>,
    /// Absolute gap, in the units that are printed.
    pub gap: u64,
}

/// How the solvers run.
#[derive(Clone, Copy, PartialEq, Eq)]
pub enum Mode {
    /// As threads of the program.
    Threads,
    /// As processes, each at a socket.
    Processes,
}

/// The settings of a solve.
#[derive(Clone, Copy, PartialEq, Eq)]
pub struct Asked<'a> {
    pub mode: Mode,
    pub ranks: Solvers,
    pub bounds: Limits,
    /// The folder of the sockets; a fresh one if it is empty.
    pub sockets: &'a str,
}

/// Solve a file.
#[derive(Clone, Copy, PartialEq, Eq)]
pub struct Solve<'a> {
    pub file: &'a str,
    /// The folder of the checkpoint, if one is kept.
    pub checkpoint: Option<&'a str>,
    pub settings: Asked<'a>,
}

/// Resume from a checkpoint.
#[derive(Clone, Copy, PartialEq, Eq)]
pub struct Restart<'a> {
    pub file: &'a str,
    /// The folder of the checkpoint.
    pub checkpoint: &'a str,
    pub settings: Asked<'a>,
}

/// Work for the coordinator at a socket.
#[derive(Clone, Copy, PartialEq, Eq)]
pub struct Worker<'a> {
    /// The file of the socket.
    pub socket: &'a str,
}

/// Print a checkpoint.
#[derive(Clone, Copy, PartialEq, Eq)]
pub struct Show<'a> {
    /// The folder of the checkpoint.
    pub checkpoint: &'a str,
}

/// Solve a generated instance.
#[derive(Clone, Copy, PartialEq, Eq)]
pub struct Gen {
    pub seed: u32,
    pub size: u32,
    pub solvers: u32,
}

/// The plan of a command line, with defaults filled in.
#[derive(Clone, Copy, PartialEq, Eq)]
pub enum Plan<'a> {
    Solve(Solve<'a>),
    Restart(Restart<'a>),
    Worker(Worker<'a>),
    Show(Show<'a>),
    Gen(Gen),
}
