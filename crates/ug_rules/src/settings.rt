use ug_branch::Base;

/// How a coordinator works.
#[derive(Clone, Copy, PartialEq, Eq)]
pub struct Settings {
    /// How many ranks there are, at least 1.
    pub solvers: u32,
    /// Whether all ranks begin with the root, and one of them wins it.
    pub racing: bool,
    /// The base of all work outside a race.
    pub base: Base,
    /// Low watermark of the pool: below it open nodes are asked for.
    pub low: u32,
    /// High watermark of the pool, at least `low`.
    pub high: u32,
    /// How many reports lie between two saves.
    pub every: u64,
    /// The run ends after this number of reports.
    pub limit: u64,
    /// How many open nodes a racer needs to win.
    pub winner: u64,
    /// The gap, multiplied by ten to the objective's scale.
    pub gap: i128,
}
