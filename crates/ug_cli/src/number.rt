ghost use Rattle.std.specs.Prelude.{◌≡◌, ◌≢◌, ◌↔◌, ◌≤◌, ℕ, IfSome, IfNone, IsTrue, slice_index, length};
ghost use Rattle.ug_cli.specs.Numbers.{IsNumber};

/// The number in a range that the word spells.
pub fn number_of(word: &str, least: u64, most: u64) -> Option<u64>
    ensures found { IfSome result (IsNumber least most word.now) }
    ensures most { IfSome result (λ number. number ≤ most) }
    ensures none { IfNone result ((number : ℕ) → IsNumber least most word.now number → ⊥) }
{
    match word.parse::<u64>() {
        Ok(number) if least <= number && number <= most && is_plain(word) => Some(number),
        _ => None,
    }
}

// The word begins with no sign, and with a zero only where that is all of it.
fn is_plain(word: &str) -> bool
    ensures { IsTrue result
        ↔ ((slice_index word.now 0 ≢ 43) × (slice_index word.now 0 ≡ 48 → length word.now ≡ 1)) }
{
    match word.as_bytes() {
        [b'+', ..] => false,
        [b'0', _, ..] => false,
        _ => true,
    }
}
