ghost use Rattle.std.specs.Prelude.{◌≡◌, ℕ, List, min, length, take, drop};

/// Bytes that come piece by piece, with no memory taken.
pub trait Pieces {
    /// The bytes that are left.
    ghost rest: { Self → List ℕ };

    /// Fills the buffer from its front with the next bytes, all of it or as many as are left, and
    /// says how many these are.
    fn next(&mut self, buffer: &mut [u8]) -> usize
        ensures count { result ≡ min (length buffer.new) (length (rest self.old)) }
        ensures bytes { take result buffer.new ≡ take result (rest self.old) }
        ensures left { rest self.new ≡ drop result (rest self.old) };
}
