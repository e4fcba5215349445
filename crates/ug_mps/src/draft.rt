mod bound_line;
mod column_line;
mod columns;
mod finish;
mod header;
mod kept;
mod row_line;
mod rows;
mod sides_line;

ghost use Rattle.std.specs.Prelude.{◌≡◌, [], List, true};
ghost use Rattle.std.specs.List.{list_any};
ghost use Rattle.ug_lines.specs.Shaped.{shape_shaped};
ghost use Rattle.ug_mps.specs.Drafts.{Drafts, TakesShape, belongs, IsWorded};
ghost use Rattle.ug_mps.specs.Entries.{Entry};
ghost use Rattle.ug_mps.specs.History.{section_of};
ghost use Rattle.ug_mps.specs.Says.{is_ended};

use crate::draft::columns::Columns;
use crate::draft::rows::Rows;
use std::alloc::Global;
use ug_drafts::MpsError;
use ug_lines::{LineShape, Section};
use ug_lists::Text;

/// What the lines so far say, kept so that the next line can be judged and the problem made.
#[derive(Drop)]
pub struct Draft {
    alloc: Global,
    rows: Rows,
    columns: Columns,
    /// How many coefficients there are.
    count: u32,
    /// The section of the next data line.
    section: Option<Section>,
    /// The sections that have begun.
    begun: Vec<Section>,
    /// Whether a sense was given.
    sensed: bool,
    maximise: bool,
    /// Whether there is an objective.
    has_objective: bool,
    /// Whether integer is on.
    integer: bool,
    /// The set that the section uses.
    set: Option<Text>,
}

impl Draft {
    /// The draft of no lines.
    pub fn new(alloc: Global) -> Draft
        ensures { Drafts [] result }
    {
        Draft {
            alloc,
            rows: Rows::new(alloc),
            columns: Columns::new(alloc),
            count: 0,
            section: None,
            begun: Vec::new(alloc),
            sensed: false,
            maximise: false,
            has_objective: false,
            integer: false,
            set: None,
        }
    }

    /// The section in which the next data line stands.
    pub fn section(&self) -> Option<Section>
        ensures value { result ≡ self.now.section }
        ensures section { (h : List Entry) → Drafts h self.now → result ≡ section_of h }
    {
        self.section
    }

    /// Whether ENDATA was taken.
    pub fn is_ended(&self) -> bool
        ensures { (h : List Entry) → Drafts h self.now → result ≡ is_ended h }
    {
        match self.section {
            Some(Section::Endata) => true,
            _ => false,
        }
    }

    /// Takes the next line, which has this number and this shape, or reports its fault. After an
    /// error the draft is of no more use.
    pub fn take(&mut self, line: u64, shape: &LineShape<'_>) -> Result<(), MpsError>
        requires section { belongs self.old.section (shape_shaped shape.now) ≡ true }
        requires words { IsWorded (shape_shaped shape.now) }
        ensures { TakesShape line (shape_shaped shape.now) self.old self.new result }
    {
        match shape {
            LineShape::Sense(word) => self.sense(line, word),
            LineShape::Row(kind, name) => self.row(line, kind, name),
            LineShape::Marker(word) => self.marker(line, word),
            LineShape::Column(name, pairs) => self.column(line, name, pairs),
            LineShape::Sides(set, pairs) => self.sides(line, *set, pairs),
            LineShape::Bound(kind, set, name, number) => {
                self.bound(line, *kind, *set, name, *number)
            }
            LineShape::Either(kind, first, second) => self.either(line, *kind, first, second),
        }
    }
}
