ghost use Rattle.std.specs.Prelude.{◌≡◌};
ghost use Rattle.ug_lines.specs.Kinds.{is_in_any_case, sense_of_word, row_kind_of, marker_of, bound_kind_of, is_semi_continuous, takes_number};

use crate::section::is;

/// The type of a row: the objective, or which sides it has.
#[derive(Clone, Copy, PartialEq, Eq)]
pub enum RowKind {
    /// `N`: the objective, where it is the first of its type.
    Objective,
    /// `L`: at most its right-hand side.
    AtMost,
    /// `G`: at least its right-hand side.
    AtLeast,
    /// `E`: its right-hand side.
    Equal,
}

/// The type of a bound.
#[derive(Clone, Copy, PartialEq, Eq)]
pub enum BoundKind {
    /// `UP`
    Upper,
    /// `LO`
    Lower,
    /// `FX`
    Fixed,
    /// `LI`
    IntegerLower,
    /// `UI`
    IntegerUpper,
    /// `FR`
    Free,
    /// `MI`
    MinusInfinity,
    /// `PL`
    PlusInfinity,
    /// `BV`
    Binary,
}

impl BoundKind {
    /// Whether a bound of this type has a number.
    pub fn takes_number(self) -> bool
        ensures { result ≡ takes_number self }
    {
        match self {
            BoundKind::Upper => true,
            BoundKind::Lower => true,
            BoundKind::Fixed => true,
            BoundKind::IntegerLower => true,
            BoundKind::IntegerUpper => true,
            _ => false,
        }
    }
}

/// Whether a word is this text, in any case of letters.
pub fn is_in_any_case(word: &[u8], text: &[u8]) -> bool
    ensures { result ≡ is_in_any_case word.now text.now }
{
    word.eq_ignore_ascii_case(text)
}

/// The sense that a word names: whether the user maximises.
pub fn sense_of(word: &[u8]) -> Option<bool>
    ensures { result ≡ sense_of_word word.now }
{
    if is_in_any_case(word, b"MIN") || is_in_any_case(word, b"MINIMIZE") {
        Some(false)
    } else if is_in_any_case(word, b"MAX") || is_in_any_case(word, b"MAXIMIZE") {
        Some(true)
    } else {
        None
    }
}

/// The row type that a word names.
pub fn row_kind_of(word: &[u8]) -> Option<RowKind>
    ensures { result ≡ row_kind_of word.now }
{
    if is(word, b"N") {
        Some(RowKind::Objective)
    } else if is(word, b"L") {
        Some(RowKind::AtMost)
    } else if is(word, b"G") {
        Some(RowKind::AtLeast)
    } else if is(word, b"E") {
        Some(RowKind::Equal)
    } else {
        None
    }
}

/// What a marker's word sets: integer on or off.
pub fn marker_of(word: &[u8]) -> Option<bool>
    ensures { result ≡ marker_of word.now }
{
    if is(word, b"'INTORG'") {
        Some(true)
    } else if is(word, b"'INTEND'") {
        Some(false)
    } else {
        None
    }
}

/// The bound type that a word names.
pub fn bound_kind_of(word: &[u8]) -> Option<BoundKind>
    ensures { result ≡ bound_kind_of word.now }
{
    match word {
        b"UP" => Some(BoundKind::Upper),
        b"LO" => Some(BoundKind::Lower),
        b"FX" => Some(BoundKind::Fixed),
        b"LI" => Some(BoundKind::IntegerLower),
        b"UI" => Some(BoundKind::IntegerUpper),
        b"FR" => Some(BoundKind::Free),
        b"MI" => Some(BoundKind::MinusInfinity),
        b"PL" => Some(BoundKind::PlusInfinity),
        b"BV" => Some(BoundKind::Binary),
        _ => None,
    }
}

/// Whether the word is the bound type of a semi-continuous column.
pub fn is_semi_continuous(word: &[u8]) -> bool
    ensures { result ≡ is_semi_continuous word.now }
{
    is(word, b"SC") || is(word, b"SI")
}
