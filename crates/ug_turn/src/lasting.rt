/// A value that stands for a history: the list of entries that lead to it from its opening.
pub trait Lasting {
    ghost use Rattle.std.specs.Prelude.{◌≡◌, ℕ, List};

    /// What a history begins with.
    type Opening;

    /// One entry of a history.
    type Entry: Drop;

    /// What the value's history began with.
    ghost opening: { Self → Self.Opening };

    /// The list of entries leads from the opening to the value.
    ghost replays: { Self → List Self.Entry → Type 0 };

    /// Which pass made an entry.
    ghost by: { Self.Entry → ℕ };

    /// The cutoff as a word; the greatest word stands for no cutoff.
    ghost cutoff: { Self → ℕ };

    /// The word of the value's cutoff. It takes no memory.
    fn word(&self) -> u64
        ensures { result ≡ cutoff self.now };
}
