//! First places of a look-up of a name.

ghost use Rattle.std.specs.Prelude.{◌≡◌, ◌+◌, ◌≤◌, ◌<◌, ◌^◌, length, IfSome};
ghost use Rattle.ug_mps.specs.Names.{StandsAt};

use std::alloc::{AllocError, Global};
use std::hash::{FoldHasher, Hasher};
use std::ops::Range;
use ug_lists::Text;

/// This many places are compared with a name.
const TRIES: usize = 8;

/// How many guesses there are with the first name.
const FIRST: usize = 64;

/// What stands where there is no guess: no name has this place.
const NO_PLACE: u32 = u32::MAX;

/// Places of names by a hash of the names. They are guesses: each is compared before it is used,
/// and nothing follows if none is right. So the hash needs no secret: names chosen to collide make
/// the guesses useless, and a look-up longer only by these few comparisons.
#[derive(Drop)]
pub struct Guesses {
    places: Vec<u32>,
}

// A number that differs for most names.
fn hash_of(name: &[u8]) -> u64 {
    let mut hasher = FoldHasher::default();
    hasher.write(name);
    hasher.finish()
}

// Which of this many guesses are a name's. How many there are is 0 or a power of two.
fn range_for(count: usize, name: &[u8]) -> Range<usize>
    ensures within { (result.start ≤ result.end) × (result.end ≤ count) }
    ensures few { result.end ≤ result.start + 8 }
{
    let hash = hash_of(name) as usize;
    let start = count.min(hash & count.wrapping_sub(1));
    let end = start + TRIES.min(count - start);
    Range { start, end }
}

// Which guess of the name is free.
fn free_for(places: &[u32], name: &[u8]) -> Option<usize>
    ensures { IfSome result (λ at. at < length places.now) }
{
    let range = range_for(places.len(), name);
    let start = range.start;
    match places[range].iter().position(|place| *place == NO_PLACE) {
        Some(at) => Some(start + at),
        None => None,
    }
}

// Puts a place where a guess of the name is free, if one is.
fn note(places: &mut [u32], name: &[u8], place: u32)
    ensures { length places.new ≡ length places.old }
{
    if let Some(at) = free_for(places, name) {
        places[at] = place;
    }
}

impl Guesses {
    pub fn new(alloc: Global) -> Guesses {
        Guesses {
            places: Vec::new(alloc),
        }
    }

    /// The place of a name, where one of its guesses is right.
    pub fn look(&self, names: &[Text], name: &[u8]) -> Option<u32>
        ensures { IfSome result (StandsAt names.now name.now) }
    {
        let range = range_for(self.places.len(), name);
        for place in &self.places[range] {
            match names.get(*place as usize) {
                Some(other) => {
                    if other.as_slice() == name {
                        return Some(*place);
                    }
                }
                None => return None,
            }
        }
        None
    }

    /// Makes room for a guess at one name more than these; after an error they are as before.
    pub fn make_room(&mut self, alloc: Global, names: &[Text]) -> Result<(), AllocError>
        requires { length names.now < 2 ^ 32 }
    {
        let count = self.places.len();
        if names.len() < count / 2 {
            return Ok(());
        }
        let mut places = vec![in alloc; NO_PLACE; FIRST.max(count.saturating_mul(2))]?;
        for (place, name) in names.iter().enumerate() {
            note(&mut places, name.as_slice(), place as u32);
        }
        self.places = places;
        Ok(())
    }

    /// Guesses from now on that a name is at a place, if one of its guesses is free.
    pub fn note(&mut self, name: &[u8], place: u32) {
        note(&mut self.places, name, place);
    }
}
