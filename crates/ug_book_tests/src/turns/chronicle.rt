use ug_turn::Lasting;

/// An entry: the pass that made it, and how many it had made before.
#[derive(Clone, Copy, PartialEq, Eq)]
pub struct Entry {
    pub pass: u32,
    pub number: u32,
}

/// A value that keeps its history. Its cutoff falls by 1 with each entry.
#[derive(Drop)]
pub struct Chronicle {
    pub start: u32,
    pub entries: Vec<Entry>,
}

impl Lasting for Chronicle {
    ghost use Rattle.std.specs.Prelude.{◌≡◌, ◌-◌, ◌^◌, vec_len};

    type Opening = u32;

    type Entry = Entry;

    ghost opening = { λ c. c.start };

    ghost replays = { λ c log. c.entries.items ≡ log };

    ghost by = { λ e. e.pass };

    ghost cutoff = { λ c. 2 ^ 64 - 1 - vec_len c.entries };

    fn word(&self) -> u64 {
        u64::MAX - self.entries.len() as u64
    }
}
