ghost use Rattle.std.specs.Prelude.{◌≡◌, ◌<◌, ◌≤◌, length, take, Ok, IfOk, OnErr, IfSome};
ghost use Rattle.ug_io.specs.Outside.{Gives, IsAtEnd, IsCounted, SinkSeen, SourceSeen, Takes};

/// A call of a source, sink, link or crew failed. The count of faults has risen.
#[derive(Clone, Copy, PartialEq, Eq)]
pub struct Failed;

/// Input: a file, or bytes in memory.
pub trait Source {
    /// The bytes left, if the source shows them, and the number of failed calls.
    ghost seen: { Self → SourceSeen };

    /// Reads some of the bytes left into the buffer and returns their number. For a buffer that is
    /// not empty, 0 is the end.
    fn read(&mut self, buffer: &mut [u8]) -> Result<usize, Failed>
        ensures within { IfOk result (λ n. n ≤ length buffer.new) }
        ensures bytes { IfOk result
            (λ n. Gives (seen self.old).left (seen self.new).left (take n buffer.new)) }
        ensures end { IfOk result
            (λ n. n ≡ 0 → 0 < length buffer.old → IsAtEnd (seen self.old).left) }
        ensures cause { IsCounted result (seen self.old).faults (seen self.new).faults };
}

/// Output: standard output, or bytes in memory.
pub trait Sink {
    /// The bytes written, if the sink shows them, and the number of failed calls.
    ghost seen: { Self → SinkSeen };

    /// Writes a prefix of the bytes, at least one if there is one, and returns its length. After a
    /// failure nothing more was written.
    fn write(&mut self, bytes: &[u8]) -> Result<usize, Failed>
        ensures within { IfOk result (λ n. n ≤ length bytes.now) }
        ensures some { IfOk result (λ n. 0 < length bytes.now → 0 < n) }
        ensures bytes { IfOk result
            (λ n. Takes (seen self.old).written (seen self.new).written (take n bytes.now)) }
        ensures kept { OnErr result ((seen self.new).written ≡ (seen self.old).written) }
        ensures cause { IsCounted result (seen self.old).faults (seen self.new).faults };
}
