//! The rounds that a worker has made, and when it releases (renews) a task: it then hands over all
//! that is left of it.

ghost use Rattle.std.specs.Prelude.{◌≡◌, ◌<◌, ◌≤◌, ◌*◌, MatchBool};
ghost use Rattle.ug_worker.specs.Releases.{IsDue, begun, counted, fresh, one_more, usual};

/// Least number of rounds of a task before it is released.
const LEAST_ROUNDS: u64 = 1024;

/// A task is released once it has had at least one in `TASKS_PART_OF_ROUNDS` of all rounds of its
/// worker.
const TASKS_PART_OF_ROUNDS: u64 = 128;

/// When a task is released: both conditions hold.
#[derive(Clone, Copy, PartialEq, Eq)]
pub struct ReleasePolicy {
    /// It has had at least this number of rounds,
    pub rounds: u64,
    /// and one in `part` of all rounds of its worker.
    pub part: u64,
}

impl ReleasePolicy {
    /// Returns the rule that the program uses.
    pub fn usual() -> ReleasePolicy
        ensures { result ≡ usual }
    {
        ReleasePolicy {
            rounds: LEAST_ROUNDS,
            part: TASKS_PART_OF_ROUNDS,
        }
    }

    // Are `task` rounds a large enough part of `all`?
    fn has_part(self, task: u64, all: u64) -> bool
        ensures { MatchBool result (all ≤ self.part * task) (self.part * task < all) }
    {
        match self.part.checked_mul(task) {
            Some(share) => all <= share,
            None => true,
        }
    }
}

/// The rounds that a worker has made and reported, and when it releases a task, if ever.
#[derive(Clone, Copy, PartialEq, Eq)]
pub struct RoundCount {
    /// When a task is released; never if `None`.
    pub policy: Option<ReleasePolicy>,
    /// All rounds.
    pub all: u64,
    /// The rounds of the current task.
    pub task: u64,
}

impl RoundCount {
    /// Returns the count before the first round.
    pub fn new(policy: Option<ReleasePolicy>) -> RoundCount
        ensures { result ≡ fresh policy }
    {
        RoundCount {
            policy,
            all: 0,
            task: 0,
        }
    }

    /// Begins a task.
    pub fn begin(&mut self)
        ensures { self.new ≡ begun self.old }
    {
        self.task = 0;
    }

    /// Counts a round.
    pub fn count(&mut self)
        ensures { self.new ≡ counted self.old }
    {
        self.all = one_more(self.all);
        self.task = one_more(self.task);
    }

    /// Must the task be released? Never during a race.
    pub fn is_due(&self, racing: bool) -> bool
        ensures { MatchBool result (IsDue self.now racing) (¬ IsDue self.now racing) }
    {
        match self.policy {
            Some(policy) => {
                !racing && policy.rounds <= self.task && policy.has_part(self.task, self.all)
            }
            None => false,
        }
    }
}

// Returns one more, up to the largest number.
fn one_more(count: u64) -> u64
    ensures { result ≡ one_more count }
{
    count.saturating_add(1)
}
