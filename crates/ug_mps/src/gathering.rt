ghost use Rattle.std.specs.Prelude.{◌≡◌, ◌<◌, ◌≤◌, ◌^◌, ◌++◌, length, take, drop, IfOk, IfErr, OnOk, IfSome, IsErrOf};
ghost use Rattle.ug_io.specs.Outside.{Gives, IsAtEnd, IsCounted, IsCountedBy};
ghost use Rattle.ug_mps.specs.Ending.{HasNoEnd, begins_legibly, legible_by, mark};
ghost use Rattle.ug_mps.specs.Enough.{HasCome, IsEnough, PieceCame, StopsAtEnd, StopsAtFeed, StopsBehind, gather_cause};
ghost use Rattle.ug_mps.specs.declared.gathering.GatherError.TheVariants.{Memory, Fault};

use crate::ending::{Seen, Tail, see, tail_of};
use crate::line::LIMIT;
use std::alloc::{AllocError, Global};
use ug_io::{Failed, Source, zeros};

/// How many bytes show that a file is too long: one more than it may have before its ENDATA line.
const MOST: usize = LIMIT + 1;

/// How many bytes are asked for at once.
const PIECE: usize = 65_536;

/// Why a file was not gathered.
#[derive(Clone, Copy)]
pub enum GatherError {
    Memory,
    Fault,
}

impl From<AllocError> for GatherError {
    ghost from_gives = { λ _ e. e ≡ Memory };

    fn from(_error: AllocError) -> GatherError {
        GatherError::Memory
    }
}

impl From<Failed> for GatherError {
    ghost from_gives = { λ _ e. e ≡ Fault };

    fn from(_error: Failed) -> GatherError {
        GatherError::Fault
    }
}

/// The bytes that are left, up to the word ENDATA of the line that it begins, or to where another
/// line passes the limit: they state what all bytes state. The rest of the ENDATA line is read on
/// over and not kept; if a byte of it may not be there, a blank and such a byte stand for it.
/// No call of the source comes after the one that brought the end of that line.
#[tactic(auto, using(crate::proofs::Gathered::gives_more))]
pub fn gather<S: Source>(alloc: Global, input: &mut S) -> Result<Vec<u8>, GatherError>
    ensures enough { IfOk result (λ bytes. IfSome (S.seen input.old).left
        (λ whole. IsEnough whole bytes.items)) }
    ensures stops { OnOk result (StopsAtEnd (S.seen input.old).left (S.seen input.new).left) }
    ensures cause { IsCountedBy gather_cause result
        (S.seen input.old).faults (S.seen input.new).faults }
{
    let Ok(mut buffer) = zeros(alloc, PIECE) else {
        return Err(GatherError::Memory);
    };
    let mut bytes = Vec::new(alloc);
    let mut line = 0;
    let mut from = 0;
    loop {
        match see(&bytes, line, from) {
            Seen::Ended(cut) => {
                drop(buffer);
                return ended(alloc, input, bytes, cut);
            }
            Seen::Passed => {
                drop(buffer);
                return Ok(bytes);
            }
            Seen::Open(begins) => line = begins,
        }
        buffer.truncate(room(bytes.len()));
        from = bytes.len();
        match read_on(input, &mut buffer, &mut bytes) {
            Ok(n) => {
                if n == 0 {
                    drop(buffer);
                    return Ok(bytes);
                }
            }
            Err(error) => {
                drop(buffer);
                drop(bytes);
                return Err(error);
            }
        }
    }
}

// Reads the next piece of a file of which no ended line is ENDATA, and says how many bytes it has:
// with none it is the end.
fn read_on<S: Source>(
    input: &mut S,
    buffer: &mut [u8],
    bytes: &mut Vec<u8>,
) -> Result<usize, GatherError>
    requires open_ { HasNoEnd bytes.old.items }
    requires room { 0 < length buffer.old }
    ensures room { length buffer.new ≡ length buffer.old }
    ensures came { IfOk result (HasCome buffer.new bytes.old.items bytes.new.items
        (S.seen input.old).left (S.seen input.new).left) }
    ensures cause { IsCountedBy gather_cause result
        (S.seen input.old).faults (S.seen input.new).faults }
{
    let Ok(n) = input.read(buffer) else {
        return Err(GatherError::Fault);
    };
    match bytes.extend_from_slice(&buffer[..n]) {
        Ok(()) => Ok(n),
        Err(_) => Err(GatherError::Memory),
    }
}

// The bytes up to `cut`, where the word ENDATA ends, and a mark for the rest of its line, which is
// read on over.
fn ended<S: Source>(
    alloc: Global,
    input: &mut S,
    bytes: Vec<u8>,
    cut: usize,
) -> Result<Vec<u8>, GatherError>
    requires { cut ≤ length bytes.items }
    ensures text { IfOk result (λ text. IfSome (S.seen input.old).left
        (λ more. text.items
        ≡ take cut bytes.items ++ mark (begins_legibly (drop cut bytes.items ++ more)))) }
    ensures stops { OnOk result
        (StopsBehind (drop cut bytes.items) (S.seen input.old).left (S.seen input.new).left) }
    ensures cause { IsCountedBy gather_cause result
        (S.seen input.old).faults (S.seen input.new).faults }
{
    let tail = tail_of(false, bytes.split_at(cut).1);
    match passed(alloc, input, tail) {
        Ok(legible) => cut_off(bytes, cut, legible),
        Err(error) => {
            drop(bytes);
            Err(error)
        }
    }
}

// The bytes up to `cut`, and a mark for the rest of the line.
fn cut_off(bytes: Vec<u8>, cut: usize, legible: bool) -> Result<Vec<u8>, GatherError>
    requires { cut ≤ length bytes.items }
    ensures text { IfOk result (λ text. text.items ≡ take cut bytes.items ++ mark legible) }
    ensures memory { IfErr result (λ e. e ≡ Memory) }
{
    let mut bytes = bytes;
    bytes.truncate(cut);
    if !legible && bytes.extend_from_slice(b" \0").is_err() {
        drop(bytes);
        return Err(GatherError::Memory);
    }
    Ok(bytes)
}

// Reads on over the rest of the ENDATA line by pieces, and says whether it is legible.
fn passed<S: Source>(alloc: Global, input: &mut S, tail: Tail) -> Result<bool, GatherError>
    ensures legible { IfOk result (λ legible. IfSome (S.seen input.old).left
        (λ more. legible ≡ legible_by tail more)) }
    ensures stops { OnOk result (StopsAtFeed tail (S.seen input.old).left (S.seen input.new).left) }
    ensures cause { IsCountedBy gather_cause result
        (S.seen input.old).faults (S.seen input.new).faults }
{
    let Ok(mut buffer) = zeros(alloc, PIECE) else {
        return Err(GatherError::Memory);
    };
    let passed = pass(input, &mut buffer, tail);
    drop(buffer);
    passed
}

// Reads on over the rest of the ENDATA line, and says whether it is legible. Memory is said to be
// wanting only where more bytes of the line came than can be counted.
#[tactic(auto, using(crate::proofs::Gathered::passed_start, crate::proofs::Gathered::passed_on))]
fn pass<S: Source>(input: &mut S, buffer: &mut [u8], tail: Tail) -> Result<bool, GatherError>
    requires some { 0 < length buffer.old }
    requires few { length buffer.old ≤ 65536 }
    ensures legible { IfOk result (λ legible. IfSome (S.seen input.old).left
        (λ more. legible ≡ legible_by tail more)) }
    ensures stops { OnOk result (StopsAtFeed tail (S.seen input.old).left (S.seen input.new).left) }
    ensures cause { IsCountedBy gather_cause result
        (S.seen input.old).faults (S.seen input.new).faults }
    ensures endless { IsErrOf result GatherError.Memory
        → IfSome (S.seen input.old).left (λ more. 2 ^ 63 ≤ length more) }
{
    let mut tail = tail;
    for _ in 0..u64::MAX {
        match tail {
            Tail::Legible => return Ok(true),
            Tail::Bad => return Ok(false),
            Tail::Open(after) => tail = pass_piece(input, buffer, after)?,
        }
    }
    Err(GatherError::Memory)
}

// Reads the next bytes of the ENDATA line: what is then seen of it.
fn pass_piece<S: Source>(input: &mut S, buffer: &mut [u8], after: bool) -> Result<Tail, Failed>
    requires some { 0 < length buffer.old }
    requires few { length buffer.old ≤ 65536 }
    ensures came { IfOk result
        (λ tail. PieceCame after tail (S.seen input.old).left (S.seen input.new).left) }
    ensures cause { IsCounted result (S.seen input.old).faults (S.seen input.new).faults }
    ensures room { length buffer.new ≡ length buffer.old }
{
    let n = input.read(buffer)?;
    if n == 0 {
        return Ok(if after { Tail::Bad } else { Tail::Legible });
    }
    Ok(tail_of(after, buffer.split_at(n).0))
}

// How many bytes to ask for, where this many are there: no more than up to the limit, and one at a
// time beyond it.
fn room(count: usize) -> usize
    ensures { 0 < result }
{
    if count < MOST { MOST - count } else { 1 }
}
