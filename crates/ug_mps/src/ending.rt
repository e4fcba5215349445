ghost use Rattle.std.specs.Prelude.{◌≡◌, ◌==◌, ◌+◌, ◌∷◌, ◌++◌, ◌≤◌, ℕ, List, length, drop, MatchOption, not};
ghost use Rattle.std.specs.List.{position};
ghost use Rattle.ug_lines.specs.Words.{is_line_byte};
ghost use Rattle.ug_mps.specs.Ending.{IsHead, IsBehind, IsLineAt, IsFeedAt, IsSeen, IsSeenTo, HasNoFeed, StopsFirst, IsUnended, begins_legibly, after_if, legible_by};

use crate::line::LIMIT;
use ug_lines::{END_WORD, is_blank, is_line_byte, line_feed};

/// What the first bytes of a line show: that it is the ENDATA line, or that it is another one,
/// whatever follows. `Open` is what neither shows yet.
#[derive(Clone, Copy)]
enum Head {
    Ends,
    Other,
    Open,
}

/// What was seen of the rest of an ENDATA line: the line continues, behind a carriage return or
/// not; or it is known whether all its bytes may be there.
#[derive(Clone, Copy)]
pub enum Tail {
    Open(bool),
    Legible,
    Bad,
}

/// What the bytes of a file show so far: the first line ENDATA, whose word ends at the place
/// reported; that they pass the limit without one; or, where neither shows yet, the place at which
/// their last line begins.
#[derive(Clone, Copy)]
pub enum Seen {
    Ended(usize),
    Passed,
    Open(usize),
}

// The bytes from a place on.
fn behind(bytes: &[u8], place: usize) -> &[u8]
    requires { place ≤ length bytes.now }
    ensures { result.now ≡ drop place bytes.now }
{
    bytes.split_at(place).1
}

// What the bytes behind ENDATA and a carriage return show.
fn behind_return(rest: &[u8]) -> Head
    ensures { IsBehind (13 ∷ rest.now) result }
{
    match rest {
        [] => Head::Open,
        [b, ..] => { if *b == b'\n' { Head::Ends } else { Head::Other } }
    }
}

// What the bytes behind ENDATA show.
fn behind_word(rest: &[u8]) -> Head
    ensures { IsBehind rest.now result }
{
    match rest {
        [] => Head::Open,
        [first, more @ ..] => {
            if is_blank(*first) || *first == b'\n' {
                Head::Ends
            } else if *first == b'\r' {
                behind_return(more)
            } else {
                Head::Other
            }
        }
    }
}

// What the first bytes of a line show.
fn head_of(line: &[u8]) -> Head
    ensures { IsHead line.now result }
{
    match line.strip_prefix(END_WORD) {
        Some(rest) => behind_word(rest),
        None => {
            if END_WORD.starts_with(line) {
                Head::Open
            } else {
                Head::Other
            }
        }
    }
}

// What the bytes behind a carriage return show.
fn after_return(bytes: &[u8]) -> Tail
    ensures legible { (more : List ℕ)
        → begins_legibly (13 ∷ (bytes.now ++ more)) ≡ legible_by result more }
    ensures unended { IsUnended result bytes.now }
{
    match bytes {
        [] => Tail::Open(true),
        [b, ..] => {
            if *b == b'\n' {
                Tail::Legible
            } else {
                Tail::Bad
            }
        }
    }
}

// What the bytes from one on that may not be in a line show.
fn after_stop(bytes: &[u8]) -> Tail
    requires { StopsFirst bytes.now }
    ensures legible { (more : List ℕ)
        → begins_legibly (bytes.now ++ more) ≡ legible_by result more }
    ensures unended { IsUnended result bytes.now }
{
    match bytes {
        [] => Tail::Open(false),
        [stop, more @ ..] => {
            if *stop == b'\n' {
                Tail::Legible
            } else if *stop == b'\r' {
                after_return(more)
            } else {
                Tail::Bad
            }
        }
    }
}

// Returns the place of the first byte that may not be in a line.
fn stop(bytes: &[u8]) -> Option<usize>
    ensures { result ≡ position (λ b. not (is_line_byte b)) bytes.now }
{
    bytes.iter().position(|b| !is_line_byte(*b))
}

// What the next bytes of an ENDATA line show, where no carriage return stands before them.
fn after_all(bytes: &[u8]) -> Tail
    ensures legible { (more : List ℕ)
        → begins_legibly (bytes.now ++ more) ≡ legible_by result more }
    ensures unended { IsUnended result bytes.now }
{
    match stop(bytes) {
        Some(at) => after_stop(behind(bytes, at)),
        None => Tail::Open(false),
    }
}

/// Reads on over the rest of an ENDATA line: what its next bytes show of it. It is open only where
/// no line feed is among them.
pub fn tail_of(after: bool, bytes: &[u8]) -> Tail
    ensures legible { (more : List ℕ)
        → begins_legibly (after_if after (bytes.now ++ more)) ≡ legible_by result more }
    ensures unended { IsUnended result bytes.now }
{
    if after {
        after_return(bytes)
    } else {
        after_all(bytes)
    }
}

// Returns the place of the first line feed from `from` on.
fn feed_from(bytes: &[u8], from: usize) -> Option<usize>
    requires { from ≤ length bytes.now }
    ensures { MatchOption result (HasNoFeed (drop from bytes.now)) (IsFeedAt bytes.now from) }
{
    match line_feed(behind(bytes, from)) {
        Some(at) => Some(from + at),
        None => None,
    }
}

// What the bytes show with the line feed `at` that ends the line.
fn seen_to(bytes: &[u8], line: usize, from: usize, at: usize) -> Seen
    requires line { IsLineAt bytes.now line from }
    requires feed { IsFeedAt bytes.now from at }
    ensures { IsSeenTo bytes.now at result }
{
    match head_of(behind(bytes, line)) {
        Head::Ends => Seen::Ended(line + END_WORD.len()),
        _ => {
            if at < LIMIT {
                Seen::Open(at + 1)
            } else {
                Seen::Passed
            }
        }
    }
}

// What the bytes show where no line feed ends the last line.
fn seen_last(bytes: &[u8], line: usize) -> Seen
    requires { IsLineAt bytes.now line (length bytes.now) }
    ensures { IsSeen bytes.now result }
{
    match head_of(behind(bytes, line)) {
        Head::Ends => Seen::Ended(line + END_WORD.len()),
        Head::Other => {
            if bytes.len() > LIMIT {
                Seen::Passed
            } else {
                Seen::Open(line)
            }
        }
        Head::Open => Seen::Open(line),
    }
}

/// What the bytes of a file show, where a line begins at `line` and they were examined up to
/// `from`.
pub fn see(bytes: &[u8], line: usize, from: usize) -> Seen
    requires { IsLineAt bytes.now line from }
    ensures { IsSeen bytes.now result }
{
    let mut line = line;
    let mut from = from;
    while let Some(at) = feed_from(bytes, from) {
        match seen_to(bytes, line, from, at) {
            Seen::Open(next) => {
                line = next;
                from = next;
            }
            seen => return seen,
        }
    }
    seen_last(bytes, line)
}
