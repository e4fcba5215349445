/// What a run reads, where it saves, and with whom it works.
#[derive(Drop)]
pub struct Objects<S, D, C, L> {
    /// The source that is read.
    pub input: S,
    /// The disk on which checkpoints are saved.
    pub disk: D,
    /// The solvers of a run in processes, of which none lives yet.
    pub crew: Option<C>,
    /// The link of a solver to its coordinator, over which nothing was said yet.
    pub link: Option<L>,
}
