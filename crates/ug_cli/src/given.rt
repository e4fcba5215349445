ghost use Rattle.std.specs.Prelude.{◌≡◌, ◌≤◌, ◌↔◌, ℕ, Option, Some, IfSome, IfNone, IsTrue, option_map};
ghost use Rattle.clap.specs.Words.{found_of, rows_of};
ghost use Rattle.ug_cli.specs.Numbers.{IsGiven, IsGivenIf, IsGivenOr};
ghost use Rattle.ug_cli.specs.Taken.{word_of};

use crate::number::number_of;
use clap::ArgMatches;

/// The word of an argument, its default filled in.
pub fn text_of<'a>(matches: &ArgMatches<'a>, name: &str) -> Option<&'a str>
    ensures { option_map (λ word. word.now) result
        ≡ word_of name.now (rows_of (found_of matches.now)) }
{
    matches.get_str(name)
}

/// Whether the argument has this word.
pub fn has_word(matches: &ArgMatches<'_>, name: &str, word: &str) -> bool
    ensures { IsTrue result ↔ (word_of name.now (rows_of (found_of matches.now)) ≡ Some word.now) }
{
    match text_of(matches, name) {
        Some(given) => given == word,
        None => false,
    }
}

/// The number of an argument.
pub fn given(matches: &ArgMatches<'_>, name: &str, least: u64, most: u64) -> Option<u64>
    ensures found { IfSome result
        (IsGiven least most (word_of name.now (rows_of (found_of matches.now)))) }
    ensures most { IfSome result (λ number. number ≤ most) }
    ensures none { IfNone result ((number : ℕ)
        → IsGiven least most (word_of name.now (rows_of (found_of matches.now))) number → ⊥) }
{
    match text_of(matches, name) {
        Some(word) => number_of(word, least, most),
        None => None,
    }
}

/// Returns the number of an argument, or the default.
pub fn given_or(
    matches: &ArgMatches<'_>,
    name: &str,
    least: u64,
    most: u64,
    other: u64,
) -> Option<u64>
    requires { other ≤ most }
    ensures found { IfSome result
        (IsGivenOr other least most (word_of name.now (rows_of (found_of matches.now)))) }
    ensures most { IfSome result (λ number. number ≤ most) }
    ensures none { IfNone result ((any number : ℕ)
        → IsGivenOr any least most (word_of name.now (rows_of (found_of matches.now))) number
        → ⊥) }
{
    match text_of(matches, name) {
        Some(word) => number_of(word, least, most),
        None => Some(other),
    }
}

/// Returns the number of an optional argument.
pub fn given_if(matches: &ArgMatches<'_>, name: &str, least: u64, most: u64) -> Option<Option<u64>>
    ensures found { IfSome result
        (IsGivenIf least most (word_of name.now (rows_of (found_of matches.now)))) }
    ensures most { IfSome result (λ number. IfSome number (λ n. n ≤ most)) }
    ensures none { IfNone result ((number : Option ℕ)
        → IsGivenIf least most (word_of name.now (rows_of (found_of matches.now))) number → ⊥) }
{
    match text_of(matches, name) {
        Some(word) => number_of(word, least, most).map(Some),
        None => Some(None),
    }
}
