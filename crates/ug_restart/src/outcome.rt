use ug_book::Book;

/// How a run ended, and which later saves were not made.
#[derive(Drop)]
pub struct Outcome {
    /// How it ended.
    pub end: End,
    /// The number of later saves in which the disk failed.
    pub missed: u64,
    /// The number of later saves that ran out of memory or of numbers.
    pub unsaved: u64,
    /// What became of the save of the final book, if there was one and a saver.
    pub last: Option<Attempt>,
}

/// What became of a save.
#[derive(Clone, Copy, Debug, PartialEq, Eq)]
pub enum Attempt {
    /// The image is acknowledged.
    Saved,
    /// The disk failed.
    Missed,
    /// Out of memory, or no sequence number is left.
    Unsaved,
}

impl Attempt {
    ghost use Rattle.std.specs.Prelude.{◌≡◌, ◌↔◌, IsTrue};
    ghost use Rattle.ug_restart.specs.declared.outcome.Attempt.TheVariants.{Saved};

    /// Is the image acknowledged?
    pub fn is_saved(self) -> bool
        ensures { IsTrue result ↔ (self ≡ Saved) }
    {
        matches!(self, Attempt::Saved)
    }
}

/// How a run ended.
#[derive(Drop)]
pub enum End {
    /// No node is held, and the book has the answer.
    Answered(Book),
    /// The limit of reports is reached, and a node is held.
    Limited(Book),
    /// A node is held, and no rank is alive.
    Stranded(Book),
    /// Out of memory.
    Memory,
}
