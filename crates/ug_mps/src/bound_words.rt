ghost use Rattle.std.specs.Prelude.{◌≡◌, ◌≤◌, length, IfSome};
ghost use Rattle.ug_drafts.specs.Bounds.{IsAmount};
ghost use Rattle.ug_mps.specs.BoundWords.{is_infinite_word, amount_of, numbered_change, bare_change, change_of};

use ug_drafts::{
    Amount, Bound, BoundChange, amount_from, infinity, sets, sets_both, sets_lower, sets_upper,
};
use ug_lines::{BoundKind, is_in_any_case};
use ug_problem::{Decimal, starts_with_minus, without_sign};

// Whether a word is infinite.
fn is_infinite_word(word: &[u8]) -> bool
    ensures { result ≡ is_infinite_word word.now }
{
    let bare = without_sign(word);
    is_in_any_case(bare, b"INF") || is_in_any_case(bare, b"INFINITY")
}

/// The amount that a word says, if it says one.
pub fn amount_of(word: &[u8]) -> Option<Amount>
    requires { length word.now ≤ 255 }
    ensures value { result ≡ amount_of word.now }
    ensures amount { IfSome result IsAmount }
{
    if is_infinite_word(word) {
        return Some(infinity(starts_with_minus(word)));
    }
    match Decimal::from_word(word) {
        Some(number) => Some(amount_from(number)),
        None => None,
    }
}

// What a bound with a number sets; nothing where the number is too wide.
#[tactic(auto, unfolding(crate::specs::BoundWords::numbered_change))]
fn numbered_change(kind: BoundKind, amount: Amount) -> Option<BoundChange>
    requires { IsAmount amount }
    ensures { result ≡ numbered_change kind amount }
{
    match kind {
        BoundKind::Upper => sets_upper(false, amount),
        BoundKind::IntegerUpper => sets_upper(true, amount),
        BoundKind::Lower => sets_lower(false, amount),
        BoundKind::IntegerLower => sets_lower(true, amount),
        BoundKind::Fixed => sets_both(amount),
        _ => None,
    }
}

// What a bound without a number sets.
#[tactic(auto, unfolding(crate::specs::BoundWords::bare_change))]
fn bare_change(kind: BoundKind) -> Option<BoundChange>
    ensures { result ≡ bare_change kind }
{
    match kind {
        BoundKind::Free => Some(sets(Some(Bound::Infinite), Some(Bound::Infinite), false, false)),
        BoundKind::MinusInfinity => Some(sets(Some(Bound::Infinite), None, false, false)),
        BoundKind::PlusInfinity => Some(sets(None, Some(Bound::Infinite), false, false)),
        BoundKind::Binary => Some(sets(
            Some(Bound::Finite(0)),
            Some(Bound::Finite(1)),
            false,
            true,
        )),
        _ => None,
    }
}

/// What a bound sets, by its type and its amount, if it has one; nothing where that is too wide.
pub fn change_of(kind: BoundKind, amount: Option<Amount>) -> Option<BoundChange>
    requires { IfSome amount IsAmount }
    ensures { result ≡ change_of kind amount }
{
    match amount {
        Some(amount) => numbered_change(kind, amount),
        None => bare_change(kind),
    }
}
