ghost use Rattle.std.specs.Prelude.{◌≡◌};
ghost use Rattle.std.specs.Str.{bytes_eq};
ghost use Rattle.ug_lines.specs.Kinds.{section_of_word};

/// The word that ends a file.
pub const END_WORD: &[u8] = b"ENDATA";

/// The sections of a file.
#[derive(Clone, Copy, PartialEq, Eq)]
pub enum Section {
    Name,
    Objsense,
    Rows,
    Columns,
    Rhs,
    Ranges,
    Bounds,
    Endata,
}

// Whether a word is this text.
pub(crate) fn is(word: &[u8], text: &[u8]) -> bool
    ensures { result ≡ bytes_eq word.now text.now }
{
    word == text
}

/// The section that a header's word names.
pub fn section_of(word: &[u8]) -> Option<Section>
    ensures { result ≡ section_of_word word.now }
{
    if is(word, b"NAME") {
        Some(Section::Name)
    } else if is(word, b"OBJSENSE") {
        Some(Section::Objsense)
    } else if is(word, b"ROWS") {
        Some(Section::Rows)
    } else if is(word, b"COLUMNS") {
        Some(Section::Columns)
    } else if is(word, b"RHS") {
        Some(Section::Rhs)
    } else if is(word, b"RANGES") {
        Some(Section::Ranges)
    } else if is(word, b"BOUNDS") {
        Some(Section::Bounds)
    } else if is(word, END_WORD) {
        Some(Section::Endata)
    } else {
        None
    }
}
