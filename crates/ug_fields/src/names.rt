ghost use Rattle.std.specs.Prelude.{◌≡◌};
ghost use Rattle.std.specs.List.{list_all};
ghost use Rattle.ug_lines.specs.Words.{is_word_byte};
ghost use Rattle.ug_fields.specs.Reading.{Gives, word_at, name_at};

use crate::fault::Fault;
use crate::numbers::small_at;
use ug_lines::is_word_byte;

/// A name: its length, from 1 to 255, and this many bytes of a word, which are lent.
#[tactic(auto, unfolding(crate::specs::Reading::name_at))]
pub fn name_at(bytes: &[u8]) -> Result<(&[u8], &[u8]), Fault>
    ensures { Gives (λ x. (x.0.now, x.1.now)) result (name_at bytes.now) }
{
    let (n, rest) = small_at(bytes, 1, 255)?;
    word_at(rest, n)
}

// This many bytes of a word.
#[tactic(auto, unfolding(crate::specs::Reading::word_at))]
fn word_at(bytes: &[u8], n: u8) -> Result<(&[u8], &[u8]), Fault>
    ensures { Gives (λ x. (x.0.now, x.1.now)) result (word_at n bytes.now) }
{
    let n = n as usize;
    if bytes.len() < n {
        return Err(Fault::Bad(bytes.len()));
    }
    let (word, rest) = bytes.split_at(n);
    if !are_word_bytes(word) {
        return Err(Fault::Bad(bytes.len()));
    }
    Ok((word, rest))
}

fn are_word_bytes(word: &[u8]) -> bool
    ensures { result ≡ list_all is_word_byte word.now }
{
    word.iter().all(|b| is_word_byte(*b))
}
