/// How far a decision went.
#[derive(Clone, Copy, PartialEq, Eq)]
pub enum Decision {
    /// All of its steps were made.
    Whole,
    /// Memory ran out, and this number of its first steps stand.
    CutShort { steps: u64 },
}
