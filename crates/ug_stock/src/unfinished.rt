/// A decision that ran out of memory; the number of its steps that stand.
///
/// The steps are, in this order: nodes dropped, a cutoff announced, a race ended, a race begun or
/// each node assigned, and nodes asked for.
#[derive(Clone, Copy, PartialEq, Eq)]
pub struct Unfinished {
    pub stood: u64,
}
