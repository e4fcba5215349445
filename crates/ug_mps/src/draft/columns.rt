ghost use Rattle.std.specs.Prelude.{◌≡◌, ◌≤◌, ◌+◌, ◌<◌, ◌^◌, [], ◌∷◌, ◌++◌, ◌↔◌, length, Contains, slice_set, IsNone, IsTrue, IfSome, OnOk};
ghost use Rattle.ug_drafts.specs.Kept.{with_change};
ghost use Rattle.ug_mps.specs.Columns.{new_column, column_at, FindsPlace, IsNew, OpensColumn};
ghost use Rattle.ug_mps.specs.Names.{StandsAt, AreDistinct};

use crate::names::Names;
use std::alloc::{AllocError, Global};
use std::marker::Model;
use ug_drafts::{BoundChange, ColumnDraft};
use ug_lists::Text;

/// The place of the column of a line, and whether it begins there.
#[derive(Clone, Copy)]
pub struct ColumnPlace {
    pub at: u32,
    pub new: bool,
}

/// The columns so far, with their names: 10,000 at most.
#[derive(Drop)]
pub struct Columns {
    names: Names,
    drafts: Vec<ColumnDraft>,
}

impl Model for Columns {
    ghost use Rattle.std.specs.Prelude.{◌≡◌, ◌≤◌, length};
    ghost use Rattle.ug_mps.specs.Columns.{KeptColumns};

    ghost Value = { KeptColumns };

    ghost view = { λ columns. record { names = columns.names; drafts = columns.drafts.items } };

    ghost invariant = { λ columns. (length columns.drafts.items ≡ length columns.names)
        × (length columns.names ≤ 10000) };
}

impl Columns {
    pub fn new(alloc: Global) -> Columns
        ensures { result ≡ record { names = []; drafts = [] } }
    {
        Columns {
            names: Names::new(alloc),
            drafts: Vec::new(alloc),
        }
    }

    pub fn len(&self) -> usize
        ensures names { result ≡ length self.now.names }
        ensures drafts { result ≡ length self.now.drafts }
        ensures few { result ≤ 10000 }
    {
        // A contract knows what ties names and drafts together only where both are named.
        let _ = &self.names;
        self.drafts.len()
    }

    /// The place of a column.
    pub fn find(&self, name: &[u8]) -> Option<u32>
        ensures found { IfSome result (StandsAt self.now.names name.now) }
        ensures none { IsNone result ↔ ¬ Contains self.now.names name.now }
        ensures distinct { AreDistinct self.now.names }
        ensures same { length self.now.drafts ≡ length self.now.names }
    {
        // A contract knows what ties names and drafts together only where both are named.
        let _ = &self.drafts;
        self.names.find(name)
    }

    // The place of a column that is likely to be the last.
    fn find_last(&self, name: &[u8]) -> Option<u32>
        ensures found { IfSome result (StandsAt self.now.names name.now) }
        ensures none { IsNone result ↔ ¬ Contains self.now.names name.now }
        ensures distinct { AreDistinct self.now.names }
        ensures same { length self.now.drafts ≡ length self.now.names }
    {
        // A contract knows what ties names and drafts together only where both are named.
        let _ = &self.drafts;
        self.names.find_last(name)
    }

    /// The place of the column for one more line of it: the last column continues, and a new one
    /// follows it. It is `None` where the column began before the last one.
    pub fn place(&self, name: &[u8]) -> Option<ColumnPlace>
        ensures place { FindsPlace name.now self.now result }
        ensures new { IfSome result (λ p. IsTrue p.new → IsNew self.now.names name.now p.at) }
    {
        let count = self.len();
        match self.find_last(name) {
            Some(at) => {
                if at as usize + 1 == count {
                    Some(ColumnPlace { at, new: false })
                } else {
                    None
                }
            }
            None => Some(ColumnPlace {
                at: count as u32,
                new: true,
            }),
        }
    }

    /// Adds a column that begins in a line.
    pub fn add(
        &mut self,
        alloc: Global,
        name: &[u8],
        line: u64,
        integer: bool,
    ) -> Result<(), AllocError>
        requires new { ¬ Contains self.old.names name.now }
        requires room { length self.old.names < 10000 }
        ensures { OnOk result (self.new ≡ record {
          names = self.old.names ++ name.now ∷ [];
          drafts = self.old.drafts ++ new_column line integer ∷ [];
        }) }
    {
        self.drafts.push(ColumnDraft {
            line,
            integer,
            low: None,
            high: None,
        })?;
        if self.names.add(alloc, name).is_err() {
            self.drafts.pop();
            return Err(AllocError);
        }
        Ok(())
    }

    /// Takes a line of a column at the place that was found for it, where a new one begins.
    pub fn open(
        &mut self,
        alloc: Global,
        place: ColumnPlace,
        name: &[u8],
        line: u64,
        integer: bool,
    ) -> Result<(), AllocError>
        requires new { IsTrue place.new → IsNew self.old.names name.now place.at }
        requires room { place.at < 10000 }
        ensures { OnOk result (OpensColumn line name.now integer place.new self.old self.new) }
    {
        if place.new {
            self.add(alloc, name, line, integer)?;
            return Ok(());
        }
        Ok(())
    }

    /// Changes the bounds of a column.
    pub fn change(&mut self, at: u32, change: BoundChange)
        requires { at < length self.old.drafts }
        ensures { self.new ≡ record self.old {
          drafts = slice_set self.old.drafts at (with_change change (column_at self.old.drafts at));
        } }
    {
        let draft = self.drafts[at as usize];
        self.drafts[at as usize] = draft.changed(change);
    }

    /// The names, and what is kept of each column. It takes no memory.
    pub fn into_parts(self) -> (Vec<Text>, Vec<ColumnDraft>)
        ensures names { result.0.items ≡ self.names }
        ensures drafts { result.1.items ≡ self.drafts }
    {
        let Columns { names, drafts } = self;
        (names.into_vec(), drafts)
    }
}
