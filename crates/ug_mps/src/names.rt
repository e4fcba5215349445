mod guesses;

ghost use Rattle.std.specs.Prelude.{◌≡◌, ◌+◌, ◌<◌, ◌^◌, [], ◌∷◌, ◌++◌, ◌↔◌, length, Contains, IsNone, IfSome, IfOk, OnOk, OnErr};
ghost use Rattle.ug_mps.specs.Names.{StandsAt, AreDistinct, AreOrdered, IsGapFor, IsSearched, name_at, name_cmp};

use crate::names::guesses::Guesses;
use std::alloc::{AllocError, Global};
use std::cmp::Ordering;
use std::marker::Model;
use ug_lists::Text;

/// Distinct names in the order in which they were added, each kept once. A look-up first guesses
/// by a hash where a name stands, and compares it; if no guess is right it searches the places
/// in the order of their names' bytes, so no choice of names makes it longer than such a search by
/// more than the guesses.
#[derive(Drop)]
pub struct Names {
    names: Vec<Text>,
    order: Vec<u32>,
    guesses: Guesses,
}

impl Model for Names {
    ghost use Rattle.std.specs.Prelude.{ℕ, List};
    ghost use Rattle.ug_mps.specs.Names.{AreOrdered};

    ghost Value = { List (List ℕ) };

    ghost view = { λ n. n.names.items };

    ghost invariant = { λ n. AreOrdered n.names.items n.order.items };
}

// The name at a place; none is there behind the last, and the answer empty.
fn name_at(names: &[Text], place: u32) -> &[u8]
    ensures { result.now ≡ name_at names.now place }
{
    match names.get(place as usize) {
        Some(name) => name.as_slice(),
        None => b"",
    }
}

// How the name at a place lies to a name, by their bytes.
fn compared(names: &[Text], place: u32, name: &[u8]) -> Ordering
    ensures { result ≡ name_cmp (name_at names.now place) name.now }
{
    name_at(names, place).cmp(name)
}

// If the name is among the ordered places, or where it would go.
fn search(names: &[Text], order: &[u32], name: &[u8]) -> Result<usize, usize>
    requires { AreOrdered names.now order.now }
    ensures { IsSearched names.now order.now name.now result }
{
    order.binary_search_by(|place| compared(names, *place, name))
}

// The place of the name, by the ordered places.
#[tactic(auto, using(crate::proofs::NamesLemmas::stands_ordered, crate::proofs::NamesLemmas::contains_at, crate::proofs::NamesLemmas::gone_in_gap))]
fn found(names: &[Text], order: &[u32], name: &[u8]) -> Option<u32>
    requires { AreOrdered names.now order.now }
    ensures found { IfSome result (StandsAt names.now name.now) }
    ensures none { IsNone result ↔ ¬ Contains names.now name.now }
{
    match search(names, order, name) {
        Ok(at) => Some(order[at]),
        Err(_) => None,
    }
}

// Returns the index at which the place of a new name goes among the ordered places.
fn gap_for(names: &[Text], order: &[u32], name: &[u8]) -> usize
    requires ordered { AreOrdered names.now order.now }
    requires new { ¬ Contains names.now name.now }
    ensures { IsGapFor names.now order.now name.now result }
{
    match search(names, order, name) {
        Ok(at) | Err(at) => at,
    }
}

impl Names {
    pub fn new(alloc: Global) -> Names
        ensures { result ≡ [] }
    {
        Names {
            names: Vec::new(alloc),
            order: Vec::new(alloc),
            guesses: Guesses::new(alloc),
        }
    }

    #[tactic(auto, using(crate::proofs::NamesLemmas::ordered_distinct))]
    pub fn len(&self) -> usize
        ensures value { result ≡ length self.now }
        ensures distinct { AreDistinct self.now }
    {
        self.names.len()
    }

    /// The names in their order.
    #[tactic(auto, using(crate::proofs::NamesLemmas::ordered_distinct))]
    pub fn as_slice(&self) -> &[Text]
        ensures value { result.now ≡ self.now }
        ensures distinct { AreDistinct self.now }
    {
        self.names.as_slice()
    }

    /// The place of a name.
    #[tactic(auto, using(crate::proofs::NamesLemmas::contains_at, crate::proofs::NamesLemmas::ordered_distinct))]
    pub fn find(&self, name: &[u8]) -> Option<u32>
        ensures found { IfSome result (StandsAt self.now name.now) }
        ensures none { IsNone result ↔ ¬ Contains self.now name.now }
        ensures distinct { AreDistinct self.now }
    {
        match self.guesses.look(&self.names, name) {
            Some(place) => Some(place),
            None => found(&self.names, &self.order, name),
        }
    }

    // The place of the last name, if it is this one.
    #[tactic(auto, using(crate::proofs::NamesLemmas::ordered_distinct))]
    fn last_place(&self, name: &[u8]) -> Option<u32>
        requires { length self.now < 2 ^ 32 }
        ensures found { IfSome result (StandsAt self.now name.now) }
        ensures distinct { AreDistinct self.now }
    {
        match self.names.last() {
            Some(last) => {
                if last.as_slice() == name {
                    Some((self.names.len() - 1) as u32)
                } else {
                    None
                }
            }
            None => None,
        }
    }

    /// The place of a name that is likely to be the last: it is compared before it is looked up.
    pub fn find_last(&self, name: &[u8]) -> Option<u32>
        requires { length self.now < 2 ^ 32 }
        ensures found { IfSome result (StandsAt self.now name.now) }
        ensures none { IsNone result ↔ ¬ Contains self.now name.now }
        ensures distinct { AreDistinct self.now }
    {
        match self.last_place(name) {
            Some(at) => Some(at),
            None => self.find(name),
        }
    }

    /// Adds a name at the end, and says its place. After an error the names are as they were.
    pub fn add(&mut self, alloc: Global, name: &[u8]) -> Result<u32, AllocError>
        requires new { ¬ Contains self.old name.now }
        requires room { length self.old + 1 < 2 ^ 32 }
        ensures ok { OnOk result (self.new ≡ self.old ++ name.now ∷ []) }
        ensures place { IfOk result (λ j. j ≡ length self.old) }
        ensures err { OnErr result (self.new ≡ self.old) }
    {
        let place = self.names.len();
        let at = gap_for(&self.names, &self.order, name);
        let text = Text::from_slice(alloc, name)?;
        self.guesses.make_room(alloc, &self.names)?;
        self.names.push(text)?;
        match self.order.insert(at, place as u32) {
            Ok(()) => {
                self.guesses.note(name, place as u32);
                Ok(place as u32)
            }
            Err(_) => {
                self.names.truncate(place);
                Err(AllocError)
            }
        }
    }

    /// The names in their order. It takes no memory.
    #[tactic(auto, using(crate::proofs::NamesLemmas::ordered_distinct))]
    pub fn into_vec(self) -> Vec<Text>
        ensures value { result.items ≡ self }
        ensures distinct { AreDistinct self }
    {
        let Names {
            names,
            order,
            guesses,
        } = self;
        drop(order);
        drop(guesses);
        names
    }
}
