//! Problems that commands are given, and what they report. Commands over real folders are tried
//! with the built program (tests/program).

use crate::expect::holds_at;
use crate::running::told;
use std::alloc::Global;
use std::process::Abort;
use std::sync::Wait;
use std::thread::Threads;
use ug_disk::MemoryDisk;

/// The problem without columns.
pub const EMPTY: &str = "ROWS\n N Z\nENDATA\n";

/// Three columns under three rows, of which the greatest value is needed.
pub const KNAPSACK: &str = "NAME BASE
OBJSENSE MAX
ROWS
 N Z
 L P
 L Q
 L R
COLUMNS
 M 'MARKER' 'INTORG'
 A Z 5 P 2
 A Q 4 R 3
 B Z 4 P 3
 B Q 1 R 4
 C Z 3 P 1
 C Q 2 R 2
RHS
 S P 5 Q 11
 S R 8
BOUNDS
 UP D A 10
 UP D B 10
 UP D C 10
ENDATA
";

/// The report on it.
pub const OPTIMUM: &str = "optimal 13\nA 2\nC 1";

/// The status that was reported, and the lines, without the last line feed.
pub fn parts_of(told: &[u8]) -> (u8, &str) {
    match told {
        [status, lines @ ..] => (*status, lines_of(lines)),
        [] => (u8::MAX, ""),
    }
}

fn lines_of(lines: &[u8]) -> &str {
    match str::from_utf8(lines) {
        Ok(lines) => lines.strip_suffix('\n').unwrap_or("an unended line"),
        Err(_) => "no text",
    }
}

/// The first image of the empty problem: run 1 and sequence 1, no incumbent, and the root.
pub fn first_slot() -> [u8; 113] {
    let mut slot = [0u8; 113];
    slot[0] = 1;
    slot[8] = 0x68;
    slot[9] = 3;
    slot[17] = 1;
    slot[25] = 1;
    slot[29] = 0x1e;
    slot[92] = 1;
    slot
}

/// Whether a run of the knapsack reported the optimum or, but for the third, that it is open.
pub fn is_open_or_solved(told: &[u8], run: usize) -> bool {
    run < 2 && told.starts_with(b"\x08open ") || parts_of(told) == (0, OPTIMUM)
}

/// Expects the disk to show the number of the run.
pub fn shows_its_number<R: Threads + Wait + Sync + Abort>(
    rt: &R,
    alloc: Global,
    disk: &mut MemoryDisk,
    run: usize,
    line: &str,
) {
    let shown = told(rt, alloc, "show --checkpoint d", b"", disk).expect(rt, "memory");
    let first = format!(in alloc; "\0run {}\n", run.saturating_add(1)).expect(rt, "memory");
    holds_at(rt, shown.starts_with(first.as_bytes()), &line);
    drop(shown);
    drop(first);
}

/// Three runs over one disk, of which the first two may be open at their end.
pub const RUNS: &[&str] = &["solve f --limit 3", "restart f --limit 1", "restart f"];
