use std::io;
use std::io::Eprint;

// The bytes written at the front of a slot once all behind it is on the disk: an open gate.
const OPEN: &[u8] = &[1];

/// The saves in a folder, as far as messages on standard error depend on them.
#[derive(Clone, Copy)]
pub struct Saves {
    // The number of saves.
    count: u64,
    // Was an image saved in this run? A run whose first save fails ends, and its end reports why.
    has_saved: bool,
    // The number of writes and syncs that failed after that.
    failures: u64,
    // Did a call fail since the last save?
    fails: bool,
    // Was the gate of a slot opened and not synced yet? The sync ends the save.
    opens: bool,
}

// Returns the noun for this number of saves.
fn saves_of(count: u64) -> &'static str {
    if count == 1 { "save" } else { "saves" }
}

impl Saves {
    /// Returns the state before the first save.
    pub fn new() -> Saves {
        Saves {
            count: 0,
            has_saved: false,
            failures: 0,
            fails: false,
            opens: false,
        }
    }

    /// Returns the number of saves.
    pub fn count(&self) -> u64 {
        self.count
    }

    /// Records the bytes that were written last, from this place on.
    pub fn wrote(&mut self, at: u64, bytes: &[u8]) {
        self.opens = at == 0 && bytes == OPEN;
    }

    /// Prints on standard error why a call of a save failed: for the first failure, the second, the
    /// fourth and so on. A save ends with its first failed call. Before the first save of the run
    /// it prints nothing: the caller reports that failure.
    pub fn failed<R: Eprint>(&mut self, rt: &R, path: &str, error: &io::Error) {
        self.opens = false;
        if self.has_saved {
            self.fails = true;
            self.failures = self.failures.saturating_add(1);
            let count = self.failures;
            if count.is_power_of_two() {
                let saves = saves_of(count);
                let _ = eprintln!(rt;
                    "ug: warning: {path}: {error}; {count} {saves} failed so far"
                );
            }
        }
    }

    /// Records that the last write is on the disk. If it opened a gate, an image is saved; if a
    /// call had failed since the save before, standard error says so.
    pub fn settled<R: Eprint>(&mut self, rt: &R, path: &str) {
        if !self.opens {
            return;
        }
        self.opens = false;
        self.has_saved = true;
        self.count = self.count.saturating_add(1);
        if self.fails {
            self.fails = false;
            let count = self.failures;
            let saves = saves_of(count);
            let _ = eprintln!(rt;
                "ug: warning: {path}: saved again, after {count} {saves} that failed"
            );
        }
    }
}
