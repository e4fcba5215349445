use ug_rules::Heard;

/// How many messages were answered how, and what else was done.
#[derive(Clone, Copy)]
pub struct Answers {
    pub kept: u64,
    pub stale: u64,
    pub other: u64,
    /// Ranks that were said to be gone.
    pub deaths: u64,
    pub decisions: u64,
    /// Books that were begun, the first among them.
    pub books: u64,
}

impl Answers {
    pub fn new() -> Answers {
        Answers {
            kept: 0,
            stale: 0,
            other: 0,
            deaths: 0,
            decisions: 0,
            books: 0,
        }
    }

    /// Each number with its word.
    pub fn lines(&self) -> [(&'static str, u64); 6] {
        [
            ("kept", self.kept),
            ("stale", self.stale),
            ("other", self.other),
            ("deaths", self.deaths),
            ("decisions", self.decisions),
            ("books", self.books),
        ]
    }

    pub fn count(&mut self, answer: Heard) {
        match answer {
            Heard::Kept => self.kept = self.kept.wrapping_add(1),
            Heard::Stale => self.stale = self.stale.wrapping_add(1),
            _ => self.other = self.other.wrapping_add(1),
        }
    }
}
