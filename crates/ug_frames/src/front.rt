ghost use Rattle.std.specs.Prelude.{◌≡◌, ◌≤◌, ◌+◌, length, take, drop};
ghost use Rattle.std.specs.Int.{w32, from_be_bytes};
ghost use Rattle.ug_frames.specs.Fronts.{length_told};
ghost use Rattle.ug_frames.specs.Behind.{IsFront};

/// The greatest length that a frame can carry.
const LONGEST: u32 = 67_108_860;

/// What follows a frame's length.
pub enum Front<'a> {
    /// Not all that it counts, or the length itself is not all there.
    CutShort,
    /// No frame may have this length.
    Bad,
    /// The bytes that it counts.
    There(&'a [u8]),
}

// The number that the first four bytes are.
fn length_told(bytes: &[u8]) -> u32
    requires { 4 ≤ length bytes.now }
    ensures { result ≡ length_told bytes.now }
{
    u32::from_be_bytes([bytes[0], bytes[1], bytes[2], bytes[3]])
}

/// What follows the length of the frame at the front.
pub fn front_of(bytes: &[u8]) -> Front<'_>
    ensures { IsFront bytes.now result }
{
    if bytes.len() < 4 {
        return Front::CutShort;
    }
    let long = length_told(bytes);
    if long < 1 || LONGEST < long {
        return Front::Bad;
    }
    let (_, behind) = bytes.split_at(4);
    if behind.len() < long as usize {
        return Front::CutShort;
    }
    let (frame, _) = behind.split_at(long as usize);
    Front::There(frame)
}
