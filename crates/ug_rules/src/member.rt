/// A rank with an assignment, with what it last reported.
#[derive(Clone, Copy, PartialEq, Eq)]
pub struct Member {
    pub rank: u32,
    /// How many open nodes it has, 0 before its first report.
    pub open: u64,
    /// The least floor of its open nodes.
    pub floor: i128,
    /// Whether it is handing nodes, as it was asked.
    pub collecting: bool,
}
