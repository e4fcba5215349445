use ug_base::Task;

/// Result of asking for work.
#[derive(Drop)]
pub enum Took {
    /// The search of a box, under the current ticket of the rank.
    Work(Task),
    /// There is nothing for the rank now.
    Wait,
    /// No node is held, or the limit of reports is reached.
    Over,
}

/// The stage at which a `take` ran out of memory.
#[derive(Clone, Copy, PartialEq, Eq)]
pub enum Untaken {
    /// In the decision, of which the first `stood` steps stand.
    Deciding { stood: u64 },
    /// After the decision, while the task was made.
    Making,
}
