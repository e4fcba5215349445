use std::alloc::AllocGlobal;
use std::net::Net;
use std::thread;
use std::time::{Clock, Duration};
use ug_io::{Got, Link};
use ug_real::SocketLink;

// Writes all of the bytes.
fn tell(link: &mut impl Link, bytes: &[u8]) -> bool {
    let mut at = 0usize;
    for _ in 0..u64::MAX {
        let rest = bytes.get(at..).unwrap_or(&[]);
        if rest.is_empty() {
            return true;
        }
        match link.write(rest) {
            Ok(n) => at = at.saturating_add(n),
            Err(_) => return false,
        }
    }
    false
}

// Stays for a long time.
fn stay(rt: &impl Clock) {
    thread::sleep(rt, Duration::from_secs(1000));
}

// Says the bytes 'a' to 'g' over and over, until its link ends.
fn talk(link: &mut impl Link) {
    let mut bytes = [0u8; 3500];
    for (at, byte) in bytes.iter_mut().enumerate() {
        *byte = b'a' + (at % 7) as u8;
    }
    for _ in 0..u64::MAX {
        if !tell(link, &bytes) {
            return;
        }
    }
}

// Whether it continues, and where it does not, whether it is to stay once its link is closed.
#[derive(Clone, Copy)]
enum Next {
    Hear,
    Leave { stays: bool },
}

// Answers a piece, as `echo` does.
fn answer(rt: &impl Clock, link: &mut impl Link, piece: &[u8]) -> Next {
    match piece.first() {
        Some(b'q') | None => {}
        Some(b'h') => return Next::Leave { stays: true },
        Some(b's') => stay(rt),
        Some(b't') => talk(link),
        Some(_) => {
            if tell(link, piece) {
                return Next::Hear;
            }
        }
    }
    Next::Leave { stays: false }
}

// Says back what it receives, as `echo` does. Whether it is to stay once its link is closed.
fn serve(rt: &impl Clock, link: &mut impl Link) -> bool {
    let mut buffer = [0u8; 4096];
    for _ in 0..u64::MAX {
        let Ok(Got::Bytes(count)) = link.read(&mut buffer, true) else {
            return false;
        };
        if let Next::Leave { stays } = answer(rt, link, buffer.get(..count).unwrap_or(&[])) {
            return stays;
        }
    }
    false
}

/// Says back what it receives until its link ends, or a piece of it begins with a byte 'q'. Where
/// one begins with 'h' it closes its link and stays, and where one does with 's' it stays and takes
/// nothing, and where one does with 't' it talks on without an end: so such a byte is sent once
/// all before it was said back.
pub fn echo<R: Net + Clock + AllocGlobal>(rt: &R, path: &str) {
    let mut link = SocketLink::new(rt, rt.alloc(), path);
    let is_to_stay = serve(rt, &mut link);
    drop(link);
    if is_to_stay {
        stay(rt);
    }
}
