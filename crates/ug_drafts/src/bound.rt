ghost use Rattle.std.specs.Prelude.{◌≡◌, ◌≤◌, ◌^◌, unsigned_abs};
ghost use Rattle.ug_problem.specs.Decimals.{IsDecimal};
ghost use Rattle.ug_drafts.specs.Bounds.{infinity, amount, is_negative, finite, upper_bound, lower_bound, sets, sets_upper, sets_lower, sets_both, IsAmount};

use ug_problem::Decimal;

/// A bound of a column.
#[derive(Clone, Copy, PartialEq, Eq)]
pub enum Bound {
    Infinite,
    Finite(i32),
}

/// An amount: a number, or infinity.
#[derive(Clone, Copy, PartialEq, Eq)]
pub enum Amount {
    /// Minus infinity.
    BelowAll,
    /// Plus infinity.
    AboveAll,
    /// A number below 10^20 in absolute value.
    Number(Decimal),
}

/// What the line of a bound sets of a column.
#[derive(Clone, Copy, PartialEq, Eq)]
pub struct BoundChange {
    /// The lower bound, if it sets it.
    pub low: Option<Bound>,
    /// The upper bound, if it sets it.
    pub high: Option<Bound>,
    /// A lower bound that was not set falls to minus infinity.
    pub falls: bool,
    /// The column is integer.
    pub integer: bool,
}

/// Infinity, by its sign.
pub fn infinity(negative: bool) -> Amount
    ensures { result ≡ infinity negative }
{
    if negative {
        Amount::BelowAll
    } else {
        Amount::AboveAll
    }
}

/// A number as an amount.
pub fn amount_from(number: Decimal) -> Amount
    requires { IsDecimal number }
    ensures value { result ≡ amount number }
    ensures amount { IsAmount result }
{
    if number.is_huge() {
        infinity(number.negative)
    } else {
        Amount::Number(number)
    }
}

// Whether an amount is below 0.
fn is_negative(amount: Amount) -> bool
    ensures { result ≡ is_negative amount }
{
    match amount {
        Amount::BelowAll => true,
        Amount::AboveAll => false,
        Amount::Number(number) => number.negative,
    }
}

// A finite bound, if it is at most 10^9.
fn finite(number: i128) -> Option<Bound>
    requires { unsigned_abs number ≤ 10 ^ 20 }
    ensures { result ≡ finite number }
{
    if number.unsigned_abs() <= 1_000_000_000 {
        Some(Bound::Finite(number as i32))
    } else {
        None
    }
}

// An amount as an upper bound: rounded down, and not below all numbers.
fn upper_bound(amount: Amount) -> Option<Bound>
    requires { IsAmount amount }
    ensures { result ≡ upper_bound amount }
{
    match amount {
        Amount::BelowAll => None,
        Amount::AboveAll => Some(Bound::Infinite),
        Amount::Number(number) => finite(number.floor()),
    }
}

// An amount as a lower bound: rounded up, and not above all numbers.
fn lower_bound(amount: Amount) -> Option<Bound>
    requires { IsAmount amount }
    ensures { result ≡ lower_bound amount }
{
    match amount {
        Amount::BelowAll => Some(Bound::Infinite),
        Amount::AboveAll => None,
        Amount::Number(number) => finite(number.ceiling()),
    }
}

/// What a line sets of a column.
pub fn sets(low: Option<Bound>, high: Option<Bound>, falls: bool, integer: bool) -> BoundChange
    ensures { result ≡ sets low high falls integer }
{
    BoundChange {
        low,
        high,
        falls,
        integer,
    }
}

/// An upper bound, which lets an unset lower bound fall where it is below 0.
pub fn sets_upper(integer: bool, amount: Amount) -> Option<BoundChange>
    requires { IsAmount amount }
    ensures { result ≡ sets_upper integer amount }
{
    match upper_bound(amount) {
        Some(high) => Some(sets(None, Some(high), is_negative(amount), integer)),
        None => None,
    }
}

/// A lower bound.
pub fn sets_lower(integer: bool, amount: Amount) -> Option<BoundChange>
    requires { IsAmount amount }
    ensures { result ≡ sets_lower integer amount }
{
    match lower_bound(amount) {
        Some(low) => Some(sets(Some(low), None, false, integer)),
        None => None,
    }
}

/// Both bounds, each rounded inwards.
pub fn sets_both(amount: Amount) -> Option<BoundChange>
    requires { IsAmount amount }
    ensures { result ≡ sets_both amount }
{
    match amount {
        Amount::Number(number) => match (finite(number.ceiling()), finite(number.floor())) {
            (Some(low), Some(high)) => Some(sets(Some(low), Some(high), false, false)),
            _ => None,
        },
        _ => None,
    }
}
