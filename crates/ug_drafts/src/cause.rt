use crate::fault::Kind;
use crate::row::RowDraft;
use crate::scaling::{range_of, side_of};
use ug_problem::{Decimal, MOST_FACTOR, MOST_SIDE};

/// Why a file is refused, by the word at fault: more than its kind reports. No definition pins it,
/// since it is for standard error alone.
#[derive(Clone, Copy, PartialEq, Eq)]
pub enum Cause {
    /// The kind of the fault reports it.
    Plain(Kind),
    /// The first line does not belong to an MPS file.
    NoText,
    /// A byte order mark precedes the file.
    ByteOrderMark,
    /// It is a file in LP format.
    LpText,
    /// A section's name in small letters.
    SmallLetters,
    /// A section stands for a second time.
    SecondSection,
    /// A section of what is not solved.
    Unsolved,
    /// A sense is in the place of a header.
    SenseAsHeader,
    /// A word behind OBJSENSE is not a sense.
    Sense,
    /// The sense stands for a second time.
    SecondSense,
    /// A data line where no section takes one.
    NoSection,
    /// A word of more than 255 bytes.
    LongWord,
    /// A bound above 10^9.
    WideBound,
    /// A lower bound of plus infinity, an upper one of minus infinity, or both at infinity.
    InfiniteBound,
    /// A row whose numbers want more than 60 places.
    WideScale,
    /// A coefficient of a row, once it is whole.
    WideFactor,
    /// The right-hand side of a row, or the constant of the objective.
    WideSide,
    /// The range of a row.
    WideRange,
    /// A side of a row with its range.
    WideSum,
    /// This many columns are not integer.
    Continuous(u64),
    /// This many columns have an infinite bound.
    Unbounded(u64),
}

// The places behind the point of a number.
fn places(number: Decimal) -> u32 {
    if number.power < 0 {
        number.power.unsigned_abs()
    } else {
        0
    }
}

// The most places that a number of the row has.
fn most_places(draft: &RowDraft) -> u32 {
    let mut most = places(side_of(draft));
    if let Some(range) = range_of(draft) {
        most = places(range).max(most);
    }
    for term in draft.terms.as_slice() {
        most = places(term.number).max(most);
    }
    most
}

// Whether a number times ten to the scale, which makes it whole, is above the limit.
fn is_above(limit: u128, number: Decimal, scale: u32) -> bool {
    let zeros = i64::from(scale) + i64::from(number.power);
    let Ok(zeros) = u32::try_from(zeros) else {
        return false;
    };
    if number.digits == 0 {
        return false;
    }
    let Some(factor) = 10u128.checked_pow(zeros) else {
        return true;
    };
    match number.digits.checked_mul(factor) {
        Some(size) => size > limit,
        None => true,
    }
}

/// Which number of a row that is too wide is so.
pub fn wide_part(draft: &RowDraft) -> Cause {
    let scale = most_places(draft);
    if scale > 60 {
        return Cause::WideScale;
    }
    if is_above(MOST_SIDE, side_of(draft), scale) {
        return Cause::WideSide;
    }
    if let Some(range) = range_of(draft) {
        if is_above(MOST_SIDE, range, scale) {
            return Cause::WideRange;
        }
    }
    for term in draft.terms.as_slice() {
        if is_above(MOST_FACTOR, term.number, scale) {
            return Cause::WideFactor;
        }
    }
    Cause::WideSum
}
