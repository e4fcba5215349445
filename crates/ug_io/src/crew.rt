ghost use Rattle.std.specs.Prelude.{◌≡◌, ◌<◌, Bool, true, false, length, IfOk, OnOk, OnErr, MatchBool};
ghost use Rattle.ug_io.specs.Outside.{IsCounted, Rose};
ghost use Rattle.ug_io.specs.Crews.{CrewSeen, HasSent, HasTurned, IsAlive, IsAway, IsSetTo, IsSilent};

use crate::outside::Failed;

/// One event between a coordinator and a rank of its crew.
#[derive(Clone, Copy, PartialEq, Eq)]
pub enum Exchange {
    /// A byte was received from the rank.
    Heard { rank: u32, byte: u8 },
    /// A byte was sent to the rank.
    Told { rank: u32, byte: u8 },
    /// The rank is lost: nothing more comes from it.
    Gone { rank: u32 },
}

/// Result of a turn of a crew.
#[derive(Clone, Copy, PartialEq, Eq)]
pub enum Came {
    /// `count` bytes, at least one, came from the rank. They are a prefix of the buffer.
    Bytes { rank: u32, count: usize },
    /// The rank is lost: it ended, or never started.
    Gone { rank: u32 },
}

/// The workers of a run, each a rank, as their coordinator sees them: processes at sockets, or a
/// script in memory. Ranks count from 0.
pub trait Crew {
    /// The events in order, if the crew shows them; the ranks that are alive; and the number of
    /// failed calls.
    ghost seen: { Self → CrewSeen };

    /// Whether `finish` was called.
    ghost finished: { Self → Bool };

    /// Is the rank alive? It is if it was launched and is neither lost nor shut.
    fn is_alive(&self, rank: u32) -> bool
        ensures { MatchBool result (IsAlive (seen self.now) rank) (¬ IsAlive (seen self.now) rank) };

    /// Starts the rank, which is alive from then on.
    fn launch(&mut self, rank: u32) -> Result<(), Failed>
        requires { IsAway (seen self.old) rank }
        ensures launched { OnOk result (IsSetTo true (seen self.old) (seen self.new) rank) }
        ensures kept { OnErr result (IsSilent (seen self.old) (seen self.new)) }
        ensures cause { IsCounted result (seen self.old).faults (seen self.new).faults };

    /// Waits until bytes come from a live rank, or one is lost. A lost rank is not alive any more.
    /// After a failure nothing was received, and the same ranks are alive.
    fn turn(&mut self, buffer: &mut [u8]) -> Result<Came, Failed>
        requires { 0 < length buffer.old }
        ensures came { IfOk result (HasTurned (seen self.old) (seen self.new) buffer.new) }
        ensures kept { OnErr result (IsSilent (seen self.old) (seen self.new)) }
        ensures cause { OnErr result (Rose (seen self.old).faults (seen self.new).faults) };

    /// Sends all of the bytes to the rank, now or as soon as possible. After a failure it is
    /// unknown how many of them were sent.
    fn send(&mut self, rank: u32, bytes: &[u8]) -> Result<(), Failed>
        requires { IsAlive (seen self.old) rank }
        ensures told { OnOk result (HasSent (seen self.old) (seen self.new) rank bytes.now) }
        ensures kept { OnErr result (IsSilent (seen self.old) (seen self.new)) }
        ensures cause { IsCounted result (seen self.old).faults (seen self.new).faults };

    /// Stops reading from the rank: it is not alive from then on.
    fn shut(&mut self, rank: u32)
        requires { IsAlive (seen self.old) rank }
        ensures shut { IsSetTo false (seen self.old) (seen self.new) rank }
        ensures calm { (seen self.new).faults ≡ (seen self.old).faults };

    /// Flushes every send queue and waits for all ranks to end. It is the last call, and cannot
    /// fail.
    fn finish(&mut self)
        ensures finished { finished self.new ≡ true }
        ensures said { (seen self.new).said ≡ (seen self.old).said }
        ensures calm { (seen self.new).faults ≡ (seen self.old).faults };
}
