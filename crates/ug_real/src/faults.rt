ghost use Rattle.std.specs.Prelude.{◌≡◌, Ok, IfOk, IsErr, OnErr};
ghost use Rattle.ug_io.specs.Outside.{IsCounted, Rose};

use std::io;
use ug_io::Failed;

/// The number of failed calls, and the error of the last one.
#[derive(Drop)]
pub struct Faults {
    /// The number of failed calls, up to its largest value.
    pub count: u64,
    /// The error of the last call whose error was recorded.
    pub last: Option<io::Error>,
}

impl Faults {
    /// Returns the state before the first call.
    pub fn new() -> Faults
        ensures { result.count ≡ 0 }
    {
        Faults {
            count: 0,
            last: None,
        }
    }

    /// Counts a fault, up to the largest count, and records its error.
    pub fn add(&mut self, error: io::Error) -> Failed
        ensures { Rose self.old.count self.new.count }
    {
        drop(self.last.replace(error));
        self.rise()
    }

    /// Counts a fault whose cause is reported elsewhere.
    pub fn rise(&mut self) -> Failed
        ensures { Rose self.old.count self.new.count }
    {
        self.count = self.count.saturating_add(1);
        Failed
    }

    /// Returns the result of a call. If it is an error, counts and records it.
    pub fn counted<T: Drop>(&mut self, got: io::Result<T>) -> Result<T, Failed>
        ensures given { IfOk result (λ x. got ≡ Ok x) }
        ensures failed { OnErr result (IsErr got) }
        ensures cause { IsCounted result self.old.count self.new.count }
    {
        match got {
            Ok(x) => Ok(x),
            Err(error) => Err(self.add(error)),
        }
    }
}
