ghost use Rattle.std.specs.Prelude.{◌≡◌, ◌||◌, ◌==◌, ◌+◌, ◌<◌, ◌^◌, [], ◌∷◌, ◌++◌, ◌↔◌, length, Contains, slice_set, IsNone, IfNone, IfSome, OnOk, MatchOption, MatchResult};
ghost use Rattle.std.specs.Option.{option_map};
ghost use Rattle.ug_lines.specs.Shaped.{pairs_shaped};
ghost use Rattle.ug_drafts.specs.Kept.{with_part};
ghost use Rattle.ug_mps.specs.Faults.{rows_in};
ghost use Rattle.ug_mps.specs.Names.{StandsAt, AreDistinct};
ghost use Rattle.ug_mps.specs.Numbered.{pairs_said};
ghost use Rattle.ug_mps.specs.RowSteps.{new_row, row_at, places_in, AreAt, first_missing, FindsRepeated, PutsPairs, rows_named};

use crate::names::Names;
use crate::pairs::NamedNumbers;
use std::alloc::{AllocError, Global};
use std::marker::Model;
use ug_drafts::{Role, RowDraft, RowPart};
use ug_lines::NamedWords;
use ug_lists::{Items, Text};
use ug_problem::Decimal;

/// The places of one or two rows.
#[derive(Clone, Copy)]
pub struct RowPlaces {
    pub first: u32,
    pub second: Option<u32>,
}

// Whether a row has the part already, or is the one before it.
fn is_again(has: bool, place: u32, before: u32) -> bool
    ensures { result ≡ (has || place == before) }
{
    has || place == before
}

/// The rows so far, with their names.
#[derive(Drop)]
pub struct Rows {
    names: Names,
    drafts: Vec<RowDraft>,
}

impl Model for Rows {
    ghost use Rattle.std.specs.Prelude.{◌≡◌, length};
    ghost use Rattle.ug_mps.specs.Rows.{KeptRows};

    ghost Value = { KeptRows };

    ghost view = { λ rows. record { names = rows.names; drafts = rows.drafts.items } };

    ghost invariant = { λ rows. length rows.drafts.items ≡ length rows.names };
}

impl Rows {
    pub fn new(alloc: Global) -> Rows
        ensures { result ≡ record { names = []; drafts = [] } }
    {
        Rows {
            names: Names::new(alloc),
            drafts: Vec::new(alloc),
        }
    }

    pub fn len(&self) -> usize
        ensures names { result ≡ length self.now.names }
        ensures drafts { result ≡ length self.now.drafts }
    {
        self.drafts.len()
    }

    /// The place of a row.
    pub fn find(&self, name: &[u8]) -> Option<u32>
        ensures found { IfSome result (StandsAt self.now.names name.now) }
        ensures none { IsNone result ↔ ¬ Contains self.now.names name.now }
        ensures distinct { AreDistinct self.now.names }
        ensures same { length self.now.drafts ≡ length self.now.names }
    {
        // A contract knows what ties names and drafts together only where both are named.
        let _ = &self.drafts;
        self.names.find(name)
    }

    /// What a row has so far.
    pub fn get(&self, at: u32) -> &RowDraft
        requires { at < length self.now.names }
        ensures value { result.now ≡ row_at self.now.drafts at }
        ensures distinct { AreDistinct self.now.names }
    {
        // A contract knows what ties names and drafts together only where both are named.
        let _ = self.names.len();
        &self.drafts[at as usize]
    }

    /// Adds a row.
    pub fn add(
        &mut self,
        alloc: Global,
        line: u64,
        role: Role,
        name: &[u8],
    ) -> Result<(), AllocError>
        requires new { ¬ Contains self.old.names name.now }
        requires room { length self.old.names + 1 < 2 ^ 32 }
        ensures { OnOk result (self.new ≡ record {
          names = self.old.names ++ name.now ∷ [];
          drafts = self.old.drafts ++ new_row line role ∷ [];
        }) }
    {
        let draft = RowDraft {
            line,
            role,
            terms: Items::new(alloc),
            side: None,
            range: None,
            last: None,
        };
        self.drafts.push(draft)?;
        if self.names.add(alloc, name).is_err() {
            self.drafts.pop();
            return Err(AllocError);
        }
        Ok(())
    }

    // Gives a row a part.
    fn put(&mut self, at: u32, part: RowPart, number: Decimal) -> Result<(), AllocError>
        requires { at < length self.old.names }
        ensures value { OnOk result (self.new ≡ record self.old {
          drafts = slice_set self.old.drafts at (with_part part number (row_at self.old.drafts at));
        }) }
        ensures distinct { AreDistinct self.old.names }
    {
        // A contract knows what ties names and drafts together only where both are named.
        let _ = self.names.len();
        self.drafts[at as usize].put(part, number)
    }

    /// Returns the places of the rows that the pairs name, or the first name that is not a row's.
    pub fn look<'a>(&self, pairs: &NamedWords<'a>) -> Result<RowPlaces, &'a [u8]>
        ensures value { MatchResult result
            (λ places. (first_missing self.now.names (rows_in (pairs_shaped pairs.now)) ≡ None)
            × AreAt self.now.names (rows_in (pairs_shaped pairs.now)) (places_in places))
            (λ word. first_missing self.now.names (rows_in (pairs_shaped pairs.now))
            ≡ Some word.now) }
    {
        let Some(first) = self.find(pairs.first.row) else {
            return Err(pairs.first.row);
        };
        let Some(pair) = &pairs.second else {
            return Ok(RowPlaces {
                first,
                second: None,
            });
        };
        match self.find(pair.row) {
            Some(place) => Ok(RowPlaces {
                first,
                second: Some(place),
            }),
            None => Err(pair.row),
        }
    }

    /// The first row of the pairs, which are at the places, that has the part, or that is named
    /// twice.
    pub fn repeated<'a>(
        &self,
        part: RowPart,
        places: RowPlaces,
        pairs: &NamedWords<'a>,
    ) -> Option<&'a [u8]>
        requires { AreAt self.now.names (rows_in (pairs_shaped pairs.now)) (places_in places) }
        ensures { FindsRepeated part (rows_in (pairs_shaped pairs.now)) (places_in places) self.now
            result }
    {
        if self.get(places.first).has(part) {
            return Some(pairs.first.row);
        }
        let Some(place) = places.second else {
            return None;
        };
        let Some(pair) = &pairs.second else {
            return None;
        };
        if is_again(self.get(place).has(part), place, places.first) {
            return Some(pair.row);
        }
        None
    }

    /// Gives the rows of the pairs, which are at the places, the part.
    pub fn put_pairs(
        &mut self,
        part: RowPart,
        places: RowPlaces,
        pairs: &NamedNumbers<'_>,
    ) -> Result<(), AllocError>
        requires { AreAt self.old.names (rows_named (pairs_said pairs.now)) (places_in places) }
        ensures { OnOk result (PutsPairs part (pairs_said pairs.now) (places_in places) self.old
            self.new) }
    {
        self.put(places.first, part, pairs.first.number)?;
        let Some(place) = places.second else {
            return Ok(());
        };
        let Some(pair) = &pairs.second else {
            return Ok(());
        };
        self.put(place, part, pair.number)
    }

    /// The names, and what is kept of each row. It takes no memory.
    pub fn into_parts(self) -> (Vec<Text>, Vec<RowDraft>)
        ensures names { result.0.items ≡ self.names }
        ensures drafts { result.1.items ≡ self.drafts }
    {
        let Rows { names, drafts } = self;
        (names.into_vec(), drafts)
    }
}
