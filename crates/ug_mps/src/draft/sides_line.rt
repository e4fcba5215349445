ghost use Rattle.std.specs.Prelude.{◌≡◌, true, OnOk};
ghost use Rattle.ug_lines.specs.Shapes.{sides};
ghost use Rattle.ug_lines.specs.Shaped.{pairs_shaped, word_of};
ghost use Rattle.ug_mps.specs.Drafts.{TakesShape, belongs, is_passed_set, set_after, part_in};
ghost use Rattle.ug_mps.specs.Numbered.{AreShortNumbers};

use crate::draft::Draft;
use crate::error::fault_of;
use crate::pairs::numbers_of;
use std::alloc::AllocError;
use ug_drafts::{Kind, MpsError, RowPart};
use ug_lines::{NamedWords, Section};
use ug_lists::Text;

impl Draft {
    /// Whether a line of this set is passed over.
    pub fn is_other_set(&self, set: Option<&[u8]>) -> bool
        ensures { result ≡ is_passed_set (word_of set.entry) self.now.set }
    {
        match (set, &self.set) {
            (Some(set), Some(used)) => set != used.as_slice(),
            _ => false,
        }
    }

    /// Uses a set, if one is named and none was before.
    pub fn use_set(&mut self, set: Option<&[u8]>) -> Result<(), AllocError>
        ensures { OnOk result (self.new
            ≡ record self.old { set = set_after (word_of set.entry) self.old.set }) }
    {
        if self.set.is_some() {
            return Ok(());
        }
        if let Some(set) = set {
            self.set = Some(Text::from_slice(self.alloc, set)?);
        }
        Ok(())
    }

    // What pairs give their rows in this section.
    fn part(&self) -> RowPart
        ensures { result ≡ part_in self.now.section }
    {
        match self.section {
            Some(Section::Ranges) => RowPart::Range,
            _ => RowPart::Side,
        }
    }

    /// Takes a line of right-hand sides or ranges, or reports its fault.
    pub fn sides(
        &mut self,
        line: u64,
        set: Option<&[u8]>,
        pairs: &NamedWords<'_>,
    ) -> Result<(), MpsError>
        requires section { belongs self.old.section (sides (word_of set) (pairs_shaped pairs.now))
            ≡ true }
        requires numbers { AreShortNumbers (pairs_shaped pairs.now) }
        ensures { TakesShape line (sides (word_of set.entry) (pairs_shaped pairs.now)) self.old
            self.new result }
    {
        if self.is_other_set(set) {
            return Ok(());
        }
        let places = match self.rows.look(pairs) {
            Ok(places) => places,
            Err(word) => return Err(fault_of(self.alloc, line, Kind::Unknown, word)),
        };
        let part = self.part();
        if let Some(word) = self.rows.repeated(part, places, pairs) {
            return Err(fault_of(self.alloc, line, Kind::Duplicate, word));
        }
        let numbers = match numbers_of(pairs) {
            Ok(numbers) => numbers,
            Err(word) => return Err(fault_of(self.alloc, line, Kind::Number, word)),
        };
        self.rows.put_pairs(part, places, &numbers)?;
        self.use_set(set)?;
        Ok(())
    }
}
