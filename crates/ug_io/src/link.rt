ghost use Rattle.std.specs.Prelude.{◌≡◌, ◌<◌, length, IfOk, OnErr};
ghost use Rattle.ug_io.specs.Outside.{IsCounted};
ghost use Rattle.ug_io.specs.Links.{HasRead, HasTold, IsSilent, LinkSeen};

use crate::outside::Failed;

/// A byte that went over a link.
#[derive(Clone, Copy, PartialEq, Eq)]
pub enum Said {
    /// Received from the other end.
    Heard(u8),
    /// Sent to the other end.
    Told(u8),
}

/// Result of a read of a link.
#[derive(Clone, Copy, PartialEq, Eq)]
pub enum Got {
    /// The number of bytes, at least one, which are a prefix of the buffer.
    Bytes(usize),
    /// Nothing yet.
    Nothing,
    /// The other end has closed the link.
    End,
}

/// One end of a connection: a socket, or pieces in memory.
pub trait Link {
    /// The bytes received and sent, in order, if the link shows them; whether it has ended; and the
    /// number of failed calls.
    ghost seen: { Self → LinkSeen };

    /// Reads some of the bytes that have arrived. If none has, it waits for one if `wait` is set.
    /// After a failure nothing more was received.
    fn read(&mut self, buffer: &mut [u8], wait: bool) -> Result<Got, Failed>
        requires { 0 < length buffer.old }
        ensures got { IfOk result (HasRead wait (seen self.old) (seen self.new) buffer.new) }
        ensures kept { OnErr result (IsSilent (seen self.old) (seen self.new)) }
        ensures cause { IsCounted result (seen self.old).faults (seen self.new).faults };

    /// Writes a prefix of the bytes, at least one if there is one, and returns its length. After a
    /// failure nothing more was sent.
    fn write(&mut self, bytes: &[u8]) -> Result<usize, Failed>
        ensures told { IfOk result (HasTold (seen self.old) (seen self.new) bytes.now) }
        ensures kept { OnErr result (IsSilent (seen self.old) (seen self.new)) }
        ensures cause { IsCounted result (seen self.old).faults (seen self.new).faults };
}
