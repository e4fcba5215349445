ghost use Rattle.std.specs.Prelude.{◌≡◌, ◌∷◌, map, true, Some, OnOk};
ghost use Rattle.std.specs.List.{list_any};
ghost use Rattle.ug_lines.specs.Shapes.{sense, marker};
ghost use Rattle.ug_mps.specs.Drafts.{TakesHeader, TakesShape, belongs, Begins, with_sense, sense_behind};
ghost use Rattle.ug_mps.specs.Faults.{are_sense, may_follow};
ghost use Rattle.ug_mps.specs.History.{rank, is_section};

use crate::draft::Draft;
use crate::error::{bare_fault, fault_of};
use std::alloc::AllocError;
use ug_drafts::{Kind, MpsError};
use ug_lines::{Section, marker_of, section_of, sense_of};

// A section's place in the list of all.
fn rank(section: Section) -> u8
    ensures { result ≡ rank section }
{
    match section {
        Section::Name => 0,
        Section::Objsense => 1,
        Section::Rows => 2,
        Section::Columns => 3,
        Section::Rhs => 4,
        Section::Ranges => 5,
        Section::Bounds => 6,
        Section::Endata => 7,
    }
}

/// Whether two sections are one.
pub fn is_section(section: Section, other: Section) -> bool
    ensures { result ≡ is_section section other }
{
    rank(section) == rank(other)
}

// Whether the words are one sense, or nothing.
fn are_sense(words: &[&[u8]]) -> bool
    ensures { result ≡ are_sense (map (λ word. word.now) words.now) }
{
    match words {
        [] => true,
        [word] => sense_of(word).is_some(),
        _ => false,
    }
}

// Whether the words may follow the header of a section.
fn may_follow(section: Section, words: &[&[u8]]) -> bool
    ensures { result ≡ may_follow (Some section) (map (λ word. word.now) words.now) }
{
    !is_section(Section::Objsense, section) || are_sense(words)
}

impl Draft {
    // Whether a section has begun.
    fn has_begun(&self, section: Section) -> bool
        ensures { result ≡ list_any (is_section section) self.now.begun.items }
    {
        self.begun.iter().any(|other| is_section(section, *other))
    }

    // Gives the sense that one word is.
    fn give_sense(&mut self, maximise: bool)
        ensures { self.new ≡ record self.old { sensed = true; maximise = maximise } }
    {
        self.sensed = true;
        self.maximise = maximise;
    }

    // Begins a section.
    fn begin(&mut self, section: Section) -> Result<(), AllocError>
        ensures { OnOk result (Begins section self.old self.new) }
    {
        self.begun.push(section)?;
        self.section = Some(section);
        self.set = None;
        Ok(())
    }

    // Gives the sense behind the header of a section.
    fn sense_behind(&mut self, section: Section, words: &[&[u8]])
        ensures { self.new ≡ with_sense (sense_behind section (map (λ word. word.now) words.now))
            self.old }
    {
        if !is_section(Section::Objsense, section) {
            return;
        }
        if let [word] = words {
            if let Some(maximise) = sense_of(word) {
                self.give_sense(maximise);
            }
        }
    }

    /// Takes a header, or reports its fault.
    pub fn header(&mut self, line: u64, word: &[u8], words: &[&[u8]]) -> Result<(), MpsError>
        ensures { TakesHeader line (word.now ∷ map (λ word. word.now) words.now) self.old self.new
            result }
    {
        let Some(section) = section_of(word) else {
            return Err(fault_of(self.alloc, line, Kind::Section, word));
        };
        if self.has_begun(section) {
            return Err(fault_of(self.alloc, line, Kind::Section, word));
        }
        if !may_follow(section, words) {
            return Err(bare_fault(line, Kind::Words));
        }
        self.begin(section)?;
        self.sense_behind(section, words);
        Ok(())
    }

    /// Takes the sense of a data line, or reports its fault.
    pub fn sense(&mut self, line: u64, word: &[u8]) -> Result<(), MpsError>
        requires { belongs self.old.section (sense word.now) ≡ true }
        ensures { TakesShape line (sense word.now) self.old self.new result }
    {
        if self.sensed {
            return Err(bare_fault(line, Kind::Words));
        }
        let Some(maximise) = sense_of(word) else {
            return Err(bare_fault(line, Kind::Words));
        };
        self.give_sense(maximise);
        Ok(())
    }

    /// Takes a marker, or reports its fault.
    pub fn marker(&mut self, line: u64, word: &[u8]) -> Result<(), MpsError>
        requires { belongs self.old.section (marker word.now) ≡ true }
        ensures { TakesShape line (marker word.now) self.old self.new result }
    {
        let Some(integer) = marker_of(word) else {
            return Err(fault_of(self.alloc, line, Kind::Marker, word));
        };
        self.integer = integer;
        Ok(())
    }
}
