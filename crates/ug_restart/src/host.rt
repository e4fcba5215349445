use std::alloc::Global;

/// What a run uses: the runtime with its threads and locks, the allocator, and the observer.
#[derive(Drop)]
pub struct Host<'a, R, G> {
    /// The runtime: threads, locks and clocks.
    pub rt: &'a R,
    /// The allocator.
    pub alloc: Global,
    /// The observer of the run.
    pub observer: &'a G,
}
