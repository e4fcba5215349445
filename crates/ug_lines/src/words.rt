ghost use Rattle.std.specs.Prelude.{◌≡◌, ◌<◌, ◌≤◌, ◌∷◌, [], length, map, take, not};
ghost use Rattle.std.specs.List.{position, position_or_len};
ghost use Rattle.ug_lines.specs.Words.{is_blank, is_word_byte, is_line_byte, is_legible, words_of, are_short, is_data, is_comment, BeginsWord};

/// Space and tab.
pub fn is_blank(byte: u8) -> bool
    ensures { result ≡ is_blank byte }
{
    byte == b' ' || byte == b'\t'
}

/// A byte that a word may hold.
pub fn is_word_byte(byte: u8) -> bool
    ensures { result ≡ is_word_byte byte }
{
    matches!(byte, 33..=126 | 128..)
}

/// A byte that may be in a line.
pub fn is_line_byte(byte: u8) -> bool
    ensures { result ≡ is_line_byte byte }
{
    is_blank(byte) || is_word_byte(byte)
}

/// Each byte of the line may be there.
#[tactic(auto, using(crate::proofs::Firsts::all_more))]
pub fn is_legible(line: &[u8]) -> bool
    ensures { result ≡ is_legible line.now }
{
    // No byte ends the loop, so that several can be examined at once.
    let mut legible = true;
    for b in line {
        legible &= is_line_byte(*b);
    }
    legible
}

// Returns the place of the first byte other than a blank.
fn first_byte(line: &[u8]) -> Option<usize>
    ensures { result ≡ position (λ b. not (is_blank b)) line.now }
{
    line.iter().position(|b| !is_blank(*b))
}

// Returns the place of the first blank.
fn first_blank(line: &[u8]) -> Option<usize>
    ensures { result ≡ position is_blank line.now }
{
    line.iter().position(|b| is_blank(*b))
}

// Returns the line from its first byte on that is not a blank.
fn behind_blanks(line: &[u8]) -> &[u8]
    ensures words { words_of result.now ≡ words_of line.now }
    ensures begins { BeginsWord result.now }
{
    match first_byte(line) {
        Some(at) => line.split_at(at).1,
        None => line.split_at(line.len()).1,
    }
}

// How long the first word is of a line that begins with it.
fn word_end(line: &[u8]) -> usize
    ensures place { result ≡ position_or_len is_blank line.now }
    ensures within { result ≤ length line.now }
{
    match first_blank(line) {
        Some(at) => at,
        None => line.len(),
    }
}

// The first word of a line and what follows it. It is empty where there is none.
fn first_word(line: &[u8]) -> (&[u8], &[u8])
    ensures word { 0 < length result.0.now
        → words_of line.now ≡ result.0.now ∷ words_of result.1.now }
    ensures none { length result.0.now ≡ 0 → words_of line.now ≡ [] }
{
    let begun = behind_blanks(line);
    begun.split_at(word_end(begun))
}

/// Puts the first words of a line into the places, as many as there are places, and says how many.
/// They are slices of the line.
pub fn words_of<'a>(line: &'a [u8], places: &mut [&'a [u8]]) -> usize
    ensures count { result ≤ length places.new }
    ensures room { length places.new ≡ length places.old }
    ensures words { map (λ word. word.now) (take result places.new)
        ≡ take (length places.old) (words_of line.now) }
{
    let mut count = 0;
    let mut rest = line;
    while count < places.len() {
        let (word, more) = first_word(rest);
        if word.is_empty() {
            return count;
        }
        places[count] = word;
        count += 1;
        rest = more;
    }
    count
}

/// No word is above 255 bytes.
pub fn are_short(words: &[&[u8]]) -> bool
    ensures { result ≡ are_short (map (λ word. word.now) words.now) }
{
    words.iter().all(|word| word.len() <= 255)
}

/// The line begins with a blank.
pub fn is_data(line: &[u8]) -> bool
    ensures { result ≡ is_data line.now }
{
    match line.first() {
        Some(b) => is_blank(*b),
        None => false,
    }
}

/// The line begins with an asterisk.
pub fn is_comment(line: &[u8]) -> bool
    ensures { result ≡ is_comment line.now }
{
    match line.first() {
        Some(b) => *b == b'*',
        None => false,
    }
}
