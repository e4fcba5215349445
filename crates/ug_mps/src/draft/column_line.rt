ghost use Rattle.std.specs.Prelude.{◌≡◌, ◌≤◌, ◌<◌, ◌+◌, ◌||◌, length, nat_le, nat_lt, true, IsTrue, OnOk};
ghost use Rattle.ug_lines.specs.Shapes.{column};
ghost use Rattle.ug_lines.specs.Shaped.{pairs_shaped};
ghost use Rattle.ug_problem.specs.Instances.{IsName};
ghost use Rattle.ug_mps.specs.Drafts.{PutsColumn, TakesShape, belongs};
ghost use Rattle.ug_mps.specs.Columns.{IsNew};
ghost use Rattle.ug_mps.specs.Numbered.{AreShortNumbers, pairs_said};
ghost use Rattle.ug_mps.specs.RowSteps.{AreAt, places_in, rows_named};

use crate::draft::Draft;
use crate::draft::columns::ColumnPlace;
use crate::draft::rows::RowPlaces;
use crate::error::{bare_fault, fault_of};
use crate::pairs::{NamedNumbers, numbers_of};
use std::alloc::AllocError;
use ug_drafts::{Kind, MpsError, RowPart};
use ug_lines::NamedWords;
use ug_problem::{MOST_COLUMNS, MOST_TERMS};

// Whether there is no room for a column at a place, or for this many pairs more.
fn is_full(at: u32, count: u32, more: u32) -> bool
    requires { more ≤ 2 }
    ensures { result ≡ (nat_le 10000 at || nat_lt 1000000 (count + more)) }
{
    at as usize >= MOST_COLUMNS || count as usize > MOST_TERMS - more as usize
}

// The pairs of a column with their numbers, and where their rows are.
#[derive(Clone, Copy)]
struct Placed<'a> {
    places: RowPlaces,
    numbers: NamedNumbers<'a>,
}

impl Draft {
    /// Takes a line of a column, or reports its fault.
    pub fn column(&mut self, line: u64, name: &[u8], pairs: &NamedWords<'_>) -> Result<(), MpsError>
        requires section { belongs self.old.section (column name.now (pairs_shaped pairs.now))
            ≡ true }
        requires name { IsName name.now }
        requires numbers { AreShortNumbers (pairs_shaped pairs.now) }
        ensures { TakesShape line (column name.now (pairs_shaped pairs.now)) self.old self.new
            result }
    {
        let places = match self.rows.look(pairs) {
            Ok(places) => places,
            Err(word) => return Err(fault_of(self.alloc, line, Kind::Unknown, word)),
        };
        let Some(place) = self.columns.place(name) else {
            return Err(fault_of(self.alloc, line, Kind::Duplicate, name));
        };
        let part = RowPart::Coefficient(place.at);
        if let Some(word) = self.rows.repeated(part, places, pairs) {
            return Err(fault_of(self.alloc, line, Kind::Duplicate, word));
        }
        let numbers = match numbers_of(pairs) {
            Ok(numbers) => numbers,
            Err(word) => return Err(fault_of(self.alloc, line, Kind::Number, word)),
        };
        let count = numbers.count();
        if is_full(place.at, self.count, count) {
            return Err(bare_fault(line, Kind::TooMany));
        }
        self.put_column(line, name, place, Placed { places, numbers })?;
        Ok(())
    }

    // Takes the pairs of a column whose place this is, each at the place of its row.
    fn put_column(
        &mut self,
        line: u64,
        name: &[u8],
        place: ColumnPlace,
        pairs: Placed<'_>,
    ) -> Result<(), AllocError>
        requires new { IsTrue place.new → IsNew self.old.columns.names name.now place.at }
        requires room { place.at < 10000 }
        requires few { self.old.count + length (pairs_said pairs.numbers) ≤ 1000000 }
        requires stand { AreAt self.old.rows.names (rows_named (pairs_said pairs.numbers))
            (places_in pairs.places) }
        ensures put { OnOk result (PutsColumn line name.now place pairs.entry.places
            (pairs_said pairs.entry.numbers) self.old self.new) }
    {
        self.columns
            .open(self.alloc, place, name, line, self.integer)?;
        let part = RowPart::Coefficient(place.at);
        self.rows.put_pairs(part, pairs.places, &pairs.numbers)?;
        self.count += pairs.numbers.count();
        Ok(())
    }
}
