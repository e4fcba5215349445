//! A link in memory: pieces, gaps, the end, and calls that fail.

use crate::expect::holds;
use std::alloc::Global;
use ug_io::{Got, Link, MemoryLink, Said, Script};

/// A call of a link, and its result.
#[derive(Clone, Copy)]
enum Call {
    /// A read that waits, or not.
    Read {
        wait: bool,
        got: Option<Got>,
    },
    /// A write of these bytes, of which this many are taken.
    Write {
        bytes: &'static [u8],
        took: Option<usize>,
    },
}

// What comes over the link.
const PIECES: &[&[u8]] = &[b"ab", b"", b"cde", b"", b""];

// With calls of three bytes at most.
const CALLS: &[Call] = &[
    Call::Read {
        wait: false,
        got: Some(Got::Bytes(2)),
    },
    Call::Read {
        wait: false,
        got: Some(Got::Nothing),
    },
    Call::Write {
        bytes: b"wxyz",
        took: Some(3),
    },
    Call::Read {
        wait: true,
        got: Some(Got::Bytes(3)),
    },
    Call::Read {
        wait: false,
        got: Some(Got::Nothing),
    },
    Call::Read {
        wait: true,
        got: Some(Got::End),
    },
    Call::Read {
        wait: false,
        got: Some(Got::End),
    },
];

// What was said then.
const SAID: &[Said] = &[
    Said::Heard(b'a'),
    Said::Heard(b'b'),
    Said::Told(b'w'),
    Said::Told(b'x'),
    Said::Told(b'y'),
    Said::Heard(b'c'),
    Said::Heard(b'd'),
    Said::Heard(b'e'),
];

// With calls of one byte, of which the second and the third fail.
const FAILING: &[Call] = &[
    Call::Read {
        wait: true,
        got: Some(Got::Bytes(1)),
    },
    Call::Read {
        wait: true,
        got: None,
    },
    Call::Write {
        bytes: b"w",
        took: None,
    },
    Call::Write {
        bytes: b"w",
        took: Some(1),
    },
    Call::Read {
        wait: false,
        got: Some(Got::Bytes(1)),
    },
];

const SAID_FAILING: &[Said] = &[Said::Heard(b'a'), Said::Told(b'w'), Said::Heard(b'b')];

// Does the call have this result?
fn comes_so(link: &mut MemoryLink<'_>, call: Call) -> bool {
    let mut buffer = [0u8; 8];
    match call {
        Call::Read { wait, got } => link.read(&mut buffer, wait).ok() == got,
        Call::Write { bytes, took } => link.write(bytes).ok() == took,
    }
}

// Does each call have its result under a script, and was this said in the end?
fn are_so(alloc: Global, failing: &[u64], most: usize, calls: &[Call], said: &[Said]) -> bool {
    let Ok(failing) = failing.to_vec(alloc) else {
        return false;
    };
    let mut link = MemoryLink::new(alloc, PIECES, Script::new(failing, most));
    let mut so = true;
    for call in calls {
        so = comes_so(&mut link, *call) && so;
    }
    let so = so && link.said() == said;
    drop(link);
    so
}

#[test]
fn links_in_memory_say_what_goes_over_them(rt: HostRuntime) {
    holds(&rt, are_so(rt.alloc(), &[], 3, CALLS, SAID));
    holds(&rt, are_so(rt.alloc(), &[2, 3], 1, FAILING, SAID_FAILING));
}
