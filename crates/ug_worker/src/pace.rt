/// How a worker continues after a step.
#[derive(Clone, Copy, PartialEq, Eq)]
pub enum Pace {
    /// It has a task, or may find one.
    On,
    /// There is nothing to do now.
    Waits,
    /// No more work comes, or memory ran out.
    Over,
}
