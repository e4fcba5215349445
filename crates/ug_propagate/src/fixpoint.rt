ghost use Rattle.std.specs.Prelude.{◌≡◌, IsTrue};

/// Which rows of a box need not be examined when its rounds begin.
#[derive(Clone, Copy)]
pub enum Fixpoint {
    /// It is not known of any.
    Unknown,
    /// All rows are at fixpoint under this cutoff.
    Under(Option<i128>),
}

/// Whether two cutoffs are one.
pub fn is_same(a: Option<i128>, b: Option<i128>) -> bool
    ensures { IsTrue result → a ≡ b }
{
    match (a, b) {
        (None, None) => true,
        (Some(a), Some(b)) => a == b,
        _ => false,
    }
}
