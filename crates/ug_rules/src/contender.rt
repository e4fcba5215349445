/// A rank in a race, with what it last reported.
#[derive(Clone, Copy, PartialEq, Eq)]
pub struct Contender {
    pub rank: u32,
    /// How many open nodes it has, 0 before its first report.
    pub open: u64,
    /// The least floor of its open nodes.
    pub floor: i128,
}
