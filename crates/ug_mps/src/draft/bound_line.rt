ghost use Rattle.std.specs.Prelude.{◌≡◌, ◌≤◌, true, length, Some, None, IfSome, MatchResult};
ghost use Rattle.ug_lines.specs.Shapes.{bound, either};
ghost use Rattle.ug_lines.specs.Shaped.{word_of};
ghost use Rattle.ug_drafts.specs.Bounds.{IsAmount};
ghost use Rattle.ug_mps.specs.BoundWords.{amount_of};
ghost use Rattle.ug_mps.specs.Drafts.{TakesShape, belongs, IsAmountOf};

use crate::bound_words::{amount_of, change_of};
use crate::draft::Draft;
use crate::error::fault_of;
use ug_drafts::{Amount, Kind, MpsError};
use ug_lines::BoundKind;

// Returns the amount of a number, if there is one, or the word that is not a number.
fn amount_said<'a>(number: Option<&'a [u8]>) -> Result<Option<Amount>, &'a [u8]>
    requires { IfSome number (λ word. length word.now ≤ 255) }
    ensures said { MatchResult result
        (λ a. IsAmountOf (word_of number.entry) a × IfSome a IsAmount)
        (λ word. (word_of number.entry ≡ Some word.now) × (amount_of word.now ≡ None)) }
{
    match number {
        None => Ok(None),
        Some(word) => match amount_of(word) {
            Some(amount) => Ok(Some(amount)),
            None => Err(word),
        },
    }
}

impl Draft {
    /// Takes a bound, or reports its fault.
    pub fn bound(
        &mut self,
        line: u64,
        kind: BoundKind,
        set: Option<&[u8]>,
        name: &[u8],
        number: Option<&[u8]>,
    ) -> Result<(), MpsError>
        requires section { belongs self.old.section
            (bound kind (word_of set) name.now (word_of number)) ≡ true }
        requires number { IfSome number (λ word. length word.now ≤ 255) }
        ensures { TakesShape line (bound kind (word_of set.entry) name.now (word_of number.entry))
            self.old self.new result }
    {
        if self.is_other_set(set) {
            return Ok(());
        }
        let Some(at) = self.columns.find(name) else {
            return Err(fault_of(self.alloc, line, Kind::Unknown, name));
        };
        let amount = match amount_said(number) {
            Ok(amount) => amount,
            Err(word) => return Err(fault_of(self.alloc, line, Kind::Number, word)),
        };
        let Some(change) = change_of(kind, amount) else {
            return Err(fault_of(self.alloc, line, Kind::TooWide, name));
        };
        self.use_set(set)?;
        self.columns.change(at, change);
        Ok(())
    }

    /// Takes a bound without a number that has two words behind its type: if the second names a
    /// column, the first is a set's name.
    pub fn either(
        &mut self,
        line: u64,
        kind: BoundKind,
        first: &[u8],
        second: &[u8],
    ) -> Result<(), MpsError>
        requires { belongs self.old.section (either kind first.now second.now) ≡ true }
        ensures { TakesShape line (either kind first.now second.now) self.old self.new result }
    {
        if self.columns.find(second).is_some() {
            self.bound(line, kind, Some(first), second, None)
        } else {
            self.bound(line, kind, None, first, None)
        }
    }
}
