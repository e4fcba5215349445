//! Rows that are queued: one bit a row.

ghost use Rattle.std.specs.Prelude.{◌≡◌, ◌≢◌, ℕ, ◌+◌, ◌*◌, ◌/◌, ◌%◌, ◌^◌, ◌<◌, ◌≤◌, length, replicate, slice_index, IsTrue, Some, None};
ghost use Rattle.std.specs.Int.{bit_at};
ghost use Rattle.ug_propagate.specs.Queued.{AreUnqueued, HasBit, IsFound, IsFoundIn, IsNext, NoneFrom, bit_of};

/// Enqueues a row.
pub fn enqueue(words: &mut [u64], r: usize)
    requires { r < 64 * length words.old }
    ensures { HasBit r 1 words.old words.new }
{
    let at = r / 64;
    words[at] = words[at] | (1 << (r % 64));
}

/// Takes a row out of the queue.
pub fn dequeue(words: &mut [u64], r: usize)
    requires { r < 64 * length words.old }
    ensures { HasBit r 0 words.old words.new }
{
    let at = r / 64;
    words[at] = words[at] & !(1 << (r % 64));
}

// The first place of a 1 in a word from this one on.
#[tactic(auto, using(crate::proofs::Bits::none_in, crate::proofs::Bits::some_in))]
fn next_in(word: u64, low: usize) -> Option<usize>
    requires { low < 64 }
    ensures { IsFoundIn word low result }
{
    let left = word >> low;
    if left == 0 {
        return None;
    }
    Some(low + left.trailing_zeros() as usize)
}

// Whether no row of four words, this one the first, is queued. All four are read before one is
// tested: so they are tested together.
#[tactic(auto, using(crate::proofs::Bits::four_unqueued))]
fn are_unqueued(words: &[u64], at: usize) -> bool
    requires { at + 4 ≤ length words.now }
    ensures { IsTrue result → AreUnqueued words.now (64 * at) (64 * (at + 4)) }
{
    let first = words[at];
    let second = words[at + 1];
    let third = words[at + 2];
    let fourth = words[at + 3];
    first == 0 && second == 0 && third == 0 && fourth == 0
}

// The first of four words, counted by fours from this one on, of which not all rows are known to be
// asleep.
#[tactic(auto, using(crate::proofs::Bits::none_passed, crate::proofs::Bits::four_passed))]
fn past_unqueued(words: &[u64], from: usize) -> usize
    requires there { from ≤ length words.now }
    requires few { length words.now ≤ 10 ^ 6 }
    ensures least { from ≤ result }
    ensures unqueued { AreUnqueued words.now (64 * from) (64 * result) }
{
    let fours = (words.len() - from) / 4;
    for k in 0..fours {
        if !are_unqueued(words, from + 4 * k) {
            return from + 4 * k;
        }
    }
    from + 4 * fours
}

// The first row of this word or a later one that is queued.
#[tactic(auto, using(crate::proofs::Bits::word_passed, crate::proofs::Bits::word_found, crate::proofs::Bits::words_passed))]
fn first_from(words: &[u64], from: usize) -> Option<usize>
    requires there { from ≤ length words.now }
    requires few { length words.now ≤ 10 ^ 6 }
    ensures { IsFound words.now (64 * from) result }
{
    for at in past_unqueued(words, from)..words.len() {
        if let Some(bit) = next_in(words[at], 0) {
            return Some(64 * at + bit);
        }
    }
    None
}

/// The first row from this one on that is queued.
#[tactic(auto, using(crate::proofs::Bits::past_words, crate::proofs::Bits::next_here, crate::proofs::Bits::next_later))]
pub fn next(words: &[u64], from: usize) -> Option<usize>
    requires { length words.now ≤ 10 ^ 6 }
    ensures { IsFound words.now from result }
{
    let at = from / 64;
    if at >= words.len() {
        return None;
    }
    match next_in(words[at], from % 64) {
        Some(bit) => Some(64 * at + bit),
        None => first_from(words, at + 1),
    }
}

/// Enqueues each row, or takes each out of the queue.
pub fn fill(words: &mut [u64], word: u64)
    ensures { words.new ≡ replicate (length words.old) word }
{
    for at in 0..words.len() {
        words[at] = word;
    }
}
