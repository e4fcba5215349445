ghost use Rattle.std.specs.Prelude.{◌≡◌, None, false};

use ug_io::{Failed, Got, Link};

/// The coordinator's end of a link, of one task. Orders come where they are waited for alone, so
/// the last of them comes once the task is done. What is reported is kept; lack of memory for it is
/// a fault. The link reports nothing of what is said, as one of a system's does not.
#[derive(Drop)]
pub struct TaskLink<'a> {
    // The orders up to that of the task, as far as they are still to come.
    orders: &'a [u8],
    // The order behind it.
    last: &'a [u8],
    pub told: Vec<u8>,
    ended: bool,
    faults: u64,
}

impl<'a> TaskLink<'a> {
    /// A link over which nothing was said yet.
    pub fn new(orders: &'a [u8], last: &'a [u8], told: Vec<u8>) -> TaskLink<'a>
        ensures ended { result.ended ≡ false }
        ensures faults { result.faults ≡ 0 }
    {
        TaskLink {
            orders,
            last,
            told,
            ended: false,
            faults: 0,
        }
    }

    // Continues to the last order where the others came.
    fn go_on(&mut self)
        ensures ended { self.new.ended ≡ self.old.ended }
        ensures faults { self.new.faults ≡ self.old.faults }
    {
        if self.orders.is_empty() {
            self.orders = self.last;
            self.last = &[];
        }
    }
}

impl Link for TaskLink<'_> {
    ghost seen = { λ link. record { said = None; ended = link.ended; faults = link.faults } };

    fn read(&mut self, buffer: &mut [u8], wait: bool) -> Result<Got, Failed> {
        if !wait {
            return Ok(Got::Nothing);
        }
        self.go_on();
        if self.orders.is_empty() {
            self.ended = true;
            return Ok(Got::End);
        }
        let n = buffer.len().min(self.orders.len());
        let (front, after) = self.orders.split_at(n);
        buffer[..n].copy_from_slice(front);
        self.orders = after;
        Ok(Got::Bytes(n))
    }

    fn write(&mut self, bytes: &[u8]) -> Result<usize, Failed> {
        match self.told.extend_from_slice(bytes) {
            Ok(()) => Ok(bytes.len()),
            Err(_) => {
                self.faults = self.faults.saturating_add(1);
                Err(Failed)
            }
        }
    }
}
