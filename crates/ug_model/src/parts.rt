//! Parts of bytes.

ghost use Rattle.std.specs.Prelude.{◌≡◌, ◌+◌, ◌≤◌, drop, length, take};

/// The smaller of two numbers.
pub fn least(a: usize, b: usize) -> usize
    ensures first { result ≤ a }
    ensures second { result ≤ b }
{
    a.min(b)
}

/// This many bytes from this place on.
pub fn part(bytes: &[u8], at: usize, count: usize) -> &[u8]
    requires { at + count ≤ length bytes.now }
    ensures { result.now ≡ take count (drop at bytes.now) }
{
    let (_, rest) = bytes.split_at(at);
    let (front, _) = rest.split_at(count);
    front
}

/// Copies this many bytes from this place on to the front of the buffer.
pub fn copy_part(bytes: &[u8], at: usize, count: usize, buffer: &mut [u8])
    requires there { at + count ≤ length bytes.now }
    requires room { count ≤ length buffer.old }
    ensures front { take count buffer.new ≡ take count (drop at bytes.now) }
    ensures length { length buffer.new ≡ length buffer.old }
{
    let front = part(bytes, at, count);
    buffer[..count].copy_from_slice(front);
}
