ghost use Rattle.std.specs.Prelude.{◌≡◌, IfErr, OnOk, MatchOption};
ghost use Rattle.ug_restart.specs.Compares.{IsOther, IsDifference};

use crate::fault::StartFault;
use std::alloc::Global;
use ug_problem::Problem;
use ug_records::to_record;

/// Is the problem of the checkpoint the one that was read? If not, fails with the first byte at
/// which their records differ.
pub fn check_problem(alloc: Global, kept: &Problem, read: &Problem) -> Result<(), StartFault>
    ensures same { OnOk result (kept.now ≡ read.now) }
    ensures other { IfErr result (IsOther kept.now read.now) }
{
    if kept.is(read) {
        return Ok(());
    }
    // Shows that both are problems: the records of two problems are equal only if they are.
    let (_kept_columns, _read_columns) = (kept.columns(), read.columns());
    let a = to_record(alloc, kept)?;
    let b = to_record(alloc, read)?;
    match first_difference(a.as_slice(), b.as_slice()) {
        Some(difference) => Err(StartFault::OtherProblem {
            at: difference.at,
            kept: difference.kept,
            read: difference.read,
        }),
        None => unreachable!(),
    }
}

/// The first place at which two lists of bytes differ, and the bytes there.
#[derive(Clone, Copy)]
pub struct Difference {
    /// The first place at which they differ.
    pub at: usize,
    /// The byte there of the stored one, `None` past its end.
    pub kept: Option<u8>,
    /// The byte there of the one that was read, `None` past its end.
    pub read: Option<u8>,
}

// Returns the first difference of two lists of bytes, if there is one.
fn first_difference(a: &[u8], b: &[u8]) -> Option<Difference>
    ensures { MatchOption result (a.now ≡ b.now) (IsDifference a.now b.now) }
{
    let mut at = 0;
    while at < a.len() && at < b.len() && a[at] == b[at] {
        at += 1;
    }
    if at == a.len() && at == b.len() {
        return None;
    }
    Some(Difference {
        at,
        kept: a.get(at).copied(),
        read: b.get(at).copied(),
    })
}
