/// A moment in a worker's calls.
#[derive(Clone, Copy, PartialEq, Eq)]
pub enum Moment {
    /// Just before a call.
    Asking,
    /// Just after its answer.
    Answered,
}

/// The size of the model and of the run.
#[derive(Drop)]
pub struct Begun {
    /// The number of columns.
    pub columns: usize,
    /// The number of rows.
    pub rows: usize,
    /// The number of solvers of the run.
    pub solvers: u32,
    /// Does the model maximise?
    pub maximise: bool,
    /// The constant of the objective as it is printed; `None` if memory ran out.
    pub constant: Option<Vec<u8>>,
}

/// Progress of a run.
#[derive(Drop)]
pub struct Progress {
    /// The number of reports received.
    pub heard: u64,
    /// The value of the incumbent as it is printed, if there is one.
    pub best: Option<Vec<u8>>,
    /// The dual bound as it is printed: the least of the floors of the nodes held, and of the
    /// incumbent's value less the gap. It is as true as the floors that ranks reported.
    pub bound: Option<Vec<u8>>,
    /// The number of primitive nodes.
    pub nodes: usize,
}

/// Why a coordinator stopped reading from a rank that had not ended.
#[derive(Clone, Copy, PartialEq, Eq)]
pub enum Dropped {
    /// Its bytes were not a report.
    Nonsense,
    /// Its report cannot be true.
    Untrue,
}

/// Progress callbacks of a run. All methods return. Only `pass` must be implemented; the defaults
/// of the others do nothing.
pub trait Observer: Sync {
    /// The worker of a rank is at this moment. Tests hold threads here.
    fn pass(&self, rank: u32, moment: Moment);

    /// The run starts.
    fn begin(&self, _begun: &Begun) {}

    /// Should `tell` be called now, after this number of reports? `_is_better`: the last report
    /// brought a new incumbent.
    fn wants(&self, _heard: u64, _is_better: bool) -> bool {
        false
    }

    /// Incumbent, dual bound and open nodes, on request.
    fn tell(&self, _progress: &Progress) {}

    /// A rank was lost: malformed message, or a report that cannot be true.
    fn drops(&self, _rank: u32, _why: Dropped) {}

    /// The run ended, after this number of reports.
    fn end(&self, _heard: u64) {}

    /// In the final incumbent this column is at a bound of the box that the MPS file does not have.
    fn stands_at_box(&self, _column: &[u8]) {}
}

/// An observer that does nothing.
#[derive(Clone, Copy)]
pub struct Unobserved;

impl Observer for Unobserved {
    fn pass(&self, _rank: u32, _moment: Moment) {}
}
