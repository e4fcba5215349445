ghost use Rattle.std.specs.Prelude.{◌≡◌, ◌∷◌, [], map, codes, Some, None, if◌then◌else◌};
ghost use Rattle.std.specs.Option.{option_map};
ghost use Rattle.ug_lines.specs.Shapes.{pairs_of, coefficients_of, column_of, sides_of, numbered_bound_of, bare_bound_of, bound_of_kind, bound_of, row_of, sense_of, shape_of};
ghost use Rattle.ug_lines.specs.Shapes.{sides as sides_shaped};
ghost use Rattle.ug_lines.specs.Shaped.{pairs_shaped, shape_shaped, word_of};

use crate::kinds::{BoundKind, bound_kind_of};
use crate::section::{Section, is};

/// A row's name and the word of a number.
#[derive(Clone, Copy)]
pub struct NamedWord<'a> {
    pub row: &'a [u8],
    pub number: &'a [u8],
}

/// One or two pairs of a row's name and the word of a number.
#[derive(Clone, Copy)]
pub struct NamedWords<'a> {
    pub first: NamedWord<'a>,
    pub second: Option<NamedWord<'a>>,
}

/// What the words of a data line are. They are slices of the line.
#[derive(Clone, Copy)]
pub enum LineShape<'a> {
    /// The sense, under `OBJSENSE`.
    Sense(&'a [u8]),
    /// A row's type and its name.
    Row(&'a [u8], &'a [u8]),
    /// What a marker sets.
    Marker(&'a [u8]),
    /// A column and coefficients of it.
    Column(&'a [u8], NamedWords<'a>),
    /// A set's name, if there is one, and right-hand sides or ranges.
    Sides(Option<&'a [u8]>, NamedWords<'a>),
    /// A bound's type, a set's name, if there is one, a column, and a number where the type has
    /// one.
    Bound(BoundKind, Option<&'a [u8]>, &'a [u8], Option<&'a [u8]>),
    /// A bound's type without a number, and two words: a set's name and a column, or a column and a
    /// word that is not examined.
    Either(BoundKind, &'a [u8], &'a [u8]),
}

// One pair.
fn one<'a>(row: &'a [u8], number: &'a [u8]) -> NamedWords<'a>
    ensures { pairs_shaped result ≡ record { row = row.now; number = number.now } ∷ [] }
{
    NamedWords {
        first: NamedWord { row, number },
        second: None,
    }
}

// Two pairs.
fn two<'a>(row: &'a [u8], number: &'a [u8], other: &'a [u8], more: &'a [u8]) -> NamedWords<'a>
    ensures { pairs_shaped result
        ≡ record { row = row.now; number = number.now }
        ∷ record { row = other.now; number = more.now } ∷ [] }
{
    NamedWords {
        first: NamedWord { row, number },
        second: Some(NamedWord {
            row: other,
            number: more,
        }),
    }
}

// One or two pairs.
fn pairs<'a>(words: &[&'a [u8]]) -> Option<NamedWords<'a>>
    ensures { option_map pairs_shaped result ≡ pairs_of (map (λ word. word.now) words.now) }
{
    match words {
        [row, number] => Some(one(row, number)),
        [row, number, other, more] => Some(two(row, number, other, more)),
        _ => None,
    }
}

// A column and its pairs.
fn coefficients<'a>(words: &[&'a [u8]]) -> Option<LineShape<'a>>
    ensures { option_map shape_shaped result ≡ coefficients_of (map (λ word. word.now) words.now) }
{
    match words {
        [name, more @ ..] => match pairs(more) {
            Some(pairs) => Some(LineShape::Column(name, pairs)),
            None => None,
        },
        [] => None,
    }
}

// A line of COLUMNS: a marker of three words, or a column and its pairs.
fn column<'a>(words: &[&'a [u8]]) -> Option<LineShape<'a>>
    ensures { option_map shape_shaped result ≡ column_of (map (λ word. word.now) words.now) }
{
    match words {
        [_, second, third] => {
            if is(second, b"'MARKER'") {
                Some(LineShape::Marker(third))
            } else {
                coefficients(words)
            }
        }
        _ => coefficients(words),
    }
}

// Right-hand sides or ranges of a set, if there is one.
fn sides_of_set<'a>(set: Option<&'a [u8]>, words: &[&'a [u8]]) -> Option<LineShape<'a>>
    ensures { option_map shape_shaped result
        ≡ option_map (sides_shaped (word_of set.entry)) (pairs_of (map (λ word. word.now) words.now)) }
{
    match pairs(words) {
        Some(pairs) => Some(LineShape::Sides(set, pairs)),
        None => None,
    }
}

// A line of RHS or RANGES.
fn sides<'a>(words: &[&'a [u8]]) -> Option<LineShape<'a>>
    ensures { option_map shape_shaped result ≡ sides_of (map (λ word. word.now) words.now) }
{
    match words {
        [_, _] | [_, _, _, _] => sides_of_set(None, words),
        [set, more @ ..] => sides_of_set(Some(set), more),
        [] => None,
    }
}

// A bound with a number, behind its type.
fn numbered_bound<'a>(kind: BoundKind, words: &[&'a [u8]]) -> Option<LineShape<'a>>
    ensures { option_map shape_shaped result
        ≡ numbered_bound_of kind (map (λ word. word.now) words.now) }
{
    match words {
        [name, number] => Some(LineShape::Bound(kind, None, name, Some(number))),
        [set, name, number] => Some(LineShape::Bound(kind, Some(set), name, Some(number))),
        _ => None,
    }
}

// A bound without a number, behind its type.
fn bare_bound<'a>(kind: BoundKind, words: &[&'a [u8]]) -> Option<LineShape<'a>>
    ensures { option_map shape_shaped result
        ≡ bare_bound_of kind (map (λ word. word.now) words.now) }
{
    match words {
        [name] => Some(LineShape::Bound(kind, None, name, None)),
        [first, second] => Some(LineShape::Either(kind, first, second)),
        [set, name, _] => Some(LineShape::Bound(kind, Some(set), name, None)),
        _ => None,
    }
}

// A bound, behind its type.
fn bound_of_kind<'a>(kind: BoundKind, words: &[&'a [u8]]) -> Option<LineShape<'a>>
    ensures { option_map shape_shaped result
        ≡ bound_of_kind kind (map (λ word. word.now) words.now) }
{
    if kind.takes_number() {
        numbered_bound(kind, words)
    } else {
        bare_bound(kind, words)
    }
}

// A line of BOUNDS.
fn bound<'a>(words: &[&'a [u8]]) -> Option<LineShape<'a>>
    ensures { option_map shape_shaped result ≡ bound_of (map (λ word. word.now) words.now) }
{
    match words {
        [kind, more @ ..] => match bound_kind_of(kind) {
            Some(kind) => bound_of_kind(kind, more),
            None => None,
        },
        [] => None,
    }
}

// A line of ROWS: a type and a name.
fn row<'a>(words: &[&'a [u8]]) -> Option<LineShape<'a>>
    ensures { option_map shape_shaped result ≡ row_of (map (λ word. word.now) words.now) }
{
    match words {
        [kind, name] => Some(LineShape::Row(kind, name)),
        _ => None,
    }
}

// A line of OBJSENSE: one word.
fn sense<'a>(words: &[&'a [u8]]) -> Option<LineShape<'a>>
    ensures { option_map shape_shaped result ≡ sense_of (map (λ word. word.now) words.now) }
{
    match words {
        [word] => Some(LineShape::Sense(word)),
        _ => None,
    }
}

/// What the words of a data line are, in its section; nothing where their number is wrong.
pub fn shape_of<'a>(section: Section, words: &[&'a [u8]]) -> Option<LineShape<'a>>
    ensures { option_map shape_shaped result ≡ shape_of section (map (λ word. word.now) words.now) }
{
    match section {
        Section::Objsense => sense(words),
        Section::Rows => row(words),
        Section::Columns => column(words),
        Section::Rhs => sides(words),
        Section::Ranges => sides(words),
        Section::Bounds => bound(words),
        _ => None,
    }
}
