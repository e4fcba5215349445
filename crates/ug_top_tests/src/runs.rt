//! Sources and sinks that fail.

use crate::expect::same;
use crate::running::{ran_over, sound_disk, told_of};
use std::alloc::{AllocError, Global};
use std::process::Abort;
use std::sync::Wait;
use std::thread::Threads;
use ug_io::{MemorySink, Script, ScriptedSource};

const EMPTY: &str = "ROWS\n N Z\nENDATA\n";

// A source of this text, of whose calls this one fails and which gives this many bytes at most.
fn failing<'a>(
    alloc: Global,
    text: &'a str,
    call: u64,
    most: usize,
) -> Result<ScriptedSource<'a>, AllocError> {
    Ok(ScriptedSource {
        rest: text.as_bytes(),
        script: Script::new([call].to_vec(alloc)?, most),
    })
}

// Expects a solve of what a source gives to report this.
fn tells<R: Threads + Wait + Sync + Abort>(
    rt: &R,
    alloc: Global,
    input: ScriptedSource<'_>,
    wanted: &[u8],
) {
    let mut disk = sound_disk(alloc);
    let told = told_of(rt, alloc, "solve f", input, &mut disk).expect(rt, "memory");
    drop(disk);
    same(rt, &told.as_slice(), &wanted);
    drop(told);
}

#[test]
fn source_that_fails(rt: HostRuntime) {
    let alloc = rt.alloc();
    // The first read fails.
    let input = failing(alloc, EMPTY, 1, 5).expect(&rt, "memory");
    tells(&rt, alloc, input, b"\x04read fault\n");
    // The source would fail behind the ENDATA line, where nothing is read.
    let text = "ROWS\n N Z\nENDATA\nmore\n";
    let input = failing(alloc, text, 3, 9).expect(&rt, "memory");
    tells(&rt, alloc, input, b"\0optimal 0\n");
}

// The status of a solve that writes to this sink.
fn status_over<R: Threads + Wait + Sync + Abort>(
    rt: &R,
    alloc: Global,
    out: &mut MemorySink,
) -> u8 {
    let ran = ran_over(rt, alloc, EMPTY.as_bytes(), out).expect(rt, "memory");
    ran.status.code()
}

// Expects this to be written where this write fails, each of which takes up to six bytes.
fn is_cut_short<R: Threads + Wait + Sync + Abort>(rt: &R, alloc: Global, call: u64, written: &str) {
    let failing = [call].to_vec(alloc).expect(rt, "memory");
    let mut out = MemorySink::new(alloc, Script::new(failing, 6));
    same(rt, &status_over(rt, alloc, &mut out), &5);
    same(rt, &out.bytes(), &written.as_bytes());
    drop(out);
}

#[test]
fn sink_that_fails(rt: HostRuntime) {
    is_cut_short(&rt, rt.alloc(), 1, "");
    is_cut_short(&rt, rt.alloc(), 2, "optima");
}
