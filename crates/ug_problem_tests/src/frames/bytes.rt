// The half byte that a digit is.
fn half(digit: u8) -> u8 {
    match digit {
        b'0'..=b'9' => digit - b'0',
        b'a'..=b'f' => digit - b'a' + 10,
        _ => 0,
    }
}

// The run and the number of the ticket (1, 1).
const TICKET: &[u8] = b"\0\0\0\0\0\0\0\x01\0\0\0\0\0\0\0\x01";

/// Adds the bytes that two digits each spell, with blanks between some; `t` is the
/// ticket (1, 1), and `z` eight bytes of 0. Whether there was memory for them.
pub fn spell(bytes: &mut Vec<u8>, text: &str) -> bool {
    let mut so = true;
    let mut first = None;
    for digit in text.as_bytes() {
        match first {
            _ if *digit == b' ' => {}
            _ if *digit == b't' => so = so && bytes.extend_from_slice(TICKET).is_ok(),
            _ if *digit == b'z' => so = so && bytes.extend_from_slice(&[0; 8]).is_ok(),
            None => first = Some(half(*digit)),
            Some(high) => {
                so = so
                    && bytes
                        .extend_from_slice(&[(high << 4) | half(*digit)])
                        .is_ok();
                first = None;
            }
        }
    }
    so
}
