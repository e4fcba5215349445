use crate::expect::holds;
use std::io::{ErrorKind, Read, Write};
use std::net::Net;
use std::os::unix::net::{UnixListener, UnixStream};
use std::process::Abort;
use std::thread::sleep;
use std::time::{Clock, Duration};
use ug_io::{Got, Link};
use ug_real::SocketLink;

// Whether the link takes all of the bytes.
fn takes(link: &mut impl Link, bytes: &[u8]) -> bool {
    link.write(bytes).ok() == Some(bytes.len())
}

// Whether the link reads just these bytes, and waits for them or not.
fn reads(link: &mut impl Link, bytes: &[u8], waits: bool) -> bool {
    let mut buffer = [0u8; 4];
    match link.read(&mut buffer, waits) {
        Ok(Got::Bytes(count)) => buffer.get(..count) == Some(bytes),
        _ => false,
    }
}

// Sleeps until a link reads again that does not wait.
fn pause(rt: &impl Clock) {
    sleep(rt, Duration::from_millis(1));
}

// Whether the next read of the link that does not wait gives this.
fn gives(rt: &impl Clock, link: &mut impl Link, wanted: Got) -> bool {
    pause(rt);
    link.read(&mut [0u8; 4], false) == Ok(wanted)
}

// Whether a read of the link fails.
fn fails(link: &mut impl Link, waits: bool) -> bool {
    link.read(&mut [0u8; 4], waits).is_err()
}

// Whether this is why the link's last call failed that did.
fn has_failed_by<R: Net + Clock>(link: &SocketLink<'_, R>, kind: ErrorKind) -> bool {
    match link.error() {
        Some(error) => error.kind() == kind,
        None => false,
    }
}

// The other end of a link, once it has connected.
fn other_end(rt: &impl Abort, listener: &UnixListener) -> UnixStream {
    let (other, _) = listener.accept().expect(rt, "a connection");
    other
}

// Whether the other end writes something. The next read of the link finds it there.
fn tells(rt: &impl Clock, other: &mut impl Write, bytes: &[u8]) -> bool {
    let so = other.write_all(bytes).is_ok();
    pause(rt);
    so
}

// Whether what was written is sent in one piece by the next read.
fn writes_at_a_look(rt: &impl Clock, link: &mut impl Link, other: &mut impl Read) -> bool {
    let mut buffer = [0u8; 4];
    gives(rt, link, Got::Nothing) && other.read(&mut buffer).unwrap_or(0) == 4 && &buffer == b"hell"
}

// Whether what comes is read in pieces, with and without waiting.
fn reads_in_pieces(rt: &impl Clock, link: &mut impl Link, other: &mut impl Write) -> bool {
    tells(rt, other, b"abcde")
        && reads(link, b"abcd", false)
        && reads(link, b"e", true)
        && gives(rt, link, Got::Nothing)
        && other.write_all(b"f").is_ok()
        && reads(link, b"f", true)
}

// Whether the link ends, where the other end is lost and has not read all that it was reported.
fn ends(rt: &impl Clock, link: &mut impl Link) -> bool {
    fails(link, true) && gives(rt, link, Got::End) && takes(link, b"y") && fails(link, true)
}

// The link connects, and all goes over it, until it ends.
fn goes_on_until_it_ends(rt: &(impl Abort + Clock), link: &mut impl Link, listener: &UnixListener) {
    holds(rt, takes(link, b"he") && takes(link, b"llo"));
    let mut other = other_end(rt, listener);
    holds(rt, writes_at_a_look(rt, link, &mut other));
    holds(rt, reads_in_pieces(rt, link, &mut other));
    drop(other);
    holds(rt, ends(rt, link));
}

#[test]
fn a_link_reads_with_and_without_waiting_and_ends(rt: HostRuntime) {
    let listener = UnixListener::bind(&rt, "here.sock").expect(&rt, "a socket");
    let mut link = SocketLink::new(&rt, rt.alloc(), "here.sock");
    goes_on_until_it_ends(&rt, &mut link, &listener);
    holds(&rt, has_failed_by(&link, ErrorKind::BrokenPipe));
    drop(link);
    drop(listener);
}

// Whether the link takes 250 pieces of 40 bytes.
fn takes_much(link: &mut impl Link) -> bool {
    for byte in 0..250u8 {
        if !takes(link, &[byte; 40]) {
            return false;
        }
    }
    true
}

// Whether 200 of them come, in order.
fn come_in_order(other: &mut impl Read) -> bool {
    for byte in 0..200u8 {
        let mut buffer = [0u8; 40];
        if other.read_exact(&mut buffer).is_err() || buffer != [byte; 40] {
            return false;
        }
    }
    true
}

// More than a link holds back goes at once, and in order.
#[test]
fn a_link_holds_back_no_more_than_it_has_room_for(rt: HostRuntime) {
    let listener = UnixListener::bind(&rt, "full.sock").expect(&rt, "a socket");
    let mut link = SocketLink::new(&rt, rt.alloc(), "full.sock");
    holds(&rt, takes_much(&mut link));
    let mut other = other_end(&rt, &listener);
    holds(&rt, come_in_order(&mut other));
    drop(other);
    drop(link);
    drop(listener);
}

#[test]
fn a_link_to_no_socket_is_a_fault_of_its_calls(rt: HostRuntime) {
    let mut link = SocketLink::new(&rt, rt.alloc(), "nowhere.sock");
    holds(&rt, fails(&mut link, false));
    holds(&rt, link.write(b"x").is_err());
    holds(&rt, has_failed_by(&link, ErrorKind::NotFound));
    drop(link);
}
