//! The boxes left of a task: the first is handed next, the last is searched next. Beside each is
//! the least floor up to it, so that the least of all is read beside the last. Those dropped from
//! the front still count in it until it is asked for: then all are taken anew, in one pass.

ghost use Rattle.std.specs.Prelude.{◌≡◌, ◌↔◌, ◌<◌, ◌++◌, ◌∷◌, [], None, Some, IfOk, IfSome, IsNone, MatchOption, OnErr, OnOk, drop, length, map};
ghost use Rattle.ug_base.specs.Chains.{closed_of, unsettled};
ghost use Rattle.ug_base.specs.Floors.{AreLeasts, IsLeastOf, floors_of, least_of, open_boxes_in, renewed, unsettled_kept, with_least};
ghost use Rattle.ug_base.specs.Fronts.{front_of};

use crate::lesser::lesser;
use crate::open_box::OpenBox;
use std::alloc::{AllocError, Global};
use std::collections::VecDeque;
use std::marker::Model;
use ug_propagate::Fixpoint;

// A part, and the least floor up to it.
#[derive(Clone, Copy)]
struct Kept {
    open_box: OpenBox,
    least: i128,
}

/// The parts that are left.
#[derive(Drop)]
pub struct OpenBoxes {
    kept: VecDeque<Kept>,
    // The least floor of those dropped from the front that the least floors still take in.
    before: Option<i128>,
}

impl Model for OpenBoxes {
    ghost use Rattle.std.specs.Prelude.{List};
    ghost use Rattle.ug_base.specs.declared.open_box.OpenBox.{OpenBox};
    ghost use Rattle.ug_base.specs.Floors.{AreLeasts, open_boxes_in};

    ghost Value = { List OpenBox };

    ghost view = { λ open_boxes. open_boxes_in open_boxes.kept.items };

    ghost invariant = { λ open_boxes. AreLeasts open_boxes.before open_boxes.kept.items };
}

// The least floor up to this part.
fn least_up_to(kept: &Kept) -> i128
    ensures { result ≡ kept.now.least }
{
    kept.least
}

// Returns a part with the smaller of the least floor before it, if there is one, and its own.
fn kept_behind(before: Option<i128>, open_box: OpenBox) -> Kept
    ensures { result ≡ with_least before open_box }
{
    Kept {
        open_box,
        least: lesser(before, open_box.floor),
    }
}

// The first.
fn first_of(kept: &VecDeque<Kept>) -> Option<Kept>
    ensures { MatchOption result (kept.now.items ≡ [])
        (λ first. kept.now.items ≡ first ∷ drop 1 kept.now.items) }
{
    kept.front().copied()
}

// The last.
fn last_of(kept: &VecDeque<Kept>) -> Option<&Kept>
    ensures { MatchOption result (kept.now.items ≡ [])
        (λ last. kept.now.items ≡ front_of kept.now.items ++ last.now ∷ []) }
{
    kept.back()
}

// Takes the first out.
fn take_first(kept: &mut VecDeque<Kept>) -> Option<Kept>
    ensures { MatchOption result ((kept.old.items ≡ []) × (kept.new.items ≡ []))
        (λ first. kept.old.items ≡ first ∷ kept.new.items) }
{
    kept.pop_front()
}

// Drops the last.
fn drop_one(kept: &mut VecDeque<Kept>)
    ensures { kept.new.items ≡ front_of kept.old.items }
{
    kept.pop_back();
}

// The least floor of those before the last, and of those before all.
fn least_before_last(kept: &VecDeque<Kept>, before: Option<i128>) -> Option<i128>
    requires { 0 < length kept.now.items }
    ensures { result ≡ least_of before (front_of kept.now.items) }
{
    let last = kept.len() - 1;
    if last > 0 {
        Some(least_up_to(&kept[last - 1]))
    } else {
        before
    }
}

// The least floor of all, if there is one.
fn least_in(kept: &VecDeque<Kept>) -> Option<i128>
    ensures { result ≡ least_of None kept.now.items }
{
    match last_of(kept) {
        Some(last) => Some(least_up_to(last)),
        None => None,
    }
}

// Puts two parts in the last one's place, the first the last, each with the least floor up to it.
// After an error all are as they were.
fn put_two(
    kept: &mut VecDeque<Kept>,
    before: Option<i128>,
    first: OpenBox,
    second: OpenBox,
) -> Result<(), AllocError>
    requires { 0 < length kept.old.items }
    ensures ok { OnOk result (kept.new.items ≡ front_of kept.old.items
        ++ renewed (least_of before (front_of kept.old.items)) (second ∷ first ∷ [])) }
    ensures err { OnErr result (kept.new.items ≡ kept.old.items) }
{
    let at = kept.len() - 1;
    let second = kept_behind(least_before_last(kept, before), second);
    let first = kept_behind(Some(second.least), first);
    kept.push_back(first)?;
    kept[at] = second;
    Ok(())
}

// Of no part is it known any longer how the rows of its parent rested.
#[tactic(auto, using(crate::proofs::Over::all_unsettled))]
fn unsettle_all(kept: &mut VecDeque<Kept>)
    ensures { kept.new.items ≡ map unsettled_kept kept.old.items }
{
    for k in 0..kept.len() {
        kept[k].open_box.fixpoint = Fixpoint::Unknown;
    }
}

// Takes the least floor up to each part anew.
#[tactic(auto, using(crate::proofs::Leasts::none_renewed, crate::proofs::Leasts::all_renewed))]
fn renew(kept: &mut VecDeque<Kept>)
    ensures { kept.new.items ≡ renewed None (open_boxes_in kept.old.items) }
{
    let mut before = None;
    for k in 0..kept.len() {
        let next = kept_behind(before, kept[k].open_box);
        kept[k] = next;
        before = Some(least_up_to(&next));
    }
}

// The same, if the least floors take in others.
fn settle(kept: &mut VecDeque<Kept>, before: Option<i128>)
    requires { AreLeasts before kept.old.items }
    ensures open_boxes { open_boxes_in kept.new.items ≡ open_boxes_in kept.old.items }
    ensures leasts { AreLeasts None kept.new.items }
{
    if before.is_some() {
        renew(kept);
    }
}

impl OpenBoxes {
    /// One part alone.
    pub fn of(alloc: Global, open_box: OpenBox) -> Result<OpenBoxes, AllocError>
        ensures { IfOk result (λ open_boxes. open_boxes ≡ open_box ∷ []) }
    {
        let mut kept = VecDeque::new(alloc);
        kept.push_back(kept_behind(None, open_box))?;
        Ok(OpenBoxes { kept, before: None })
    }

    /// How many there are.
    pub fn len(&self) -> usize
        ensures { result ≡ length self.now }
    {
        self.kept.len()
    }

    /// The first part.
    pub fn first(&self) -> Option<OpenBox>
        ensures { MatchOption result (self.now ≡ []) (λ first. self.now ≡ first ∷ drop 1 self.now) }
    {
        match first_of(&self.kept) {
            Some(kept) => Some(kept.open_box),
            None => None,
        }
    }

    /// The last part.
    pub fn last(&self) -> Option<OpenBox>
        ensures { MatchOption result (self.now ≡ [])
            (λ last. self.now ≡ front_of self.now ++ last ∷ []) }
    {
        match last_of(&self.kept) {
            Some(kept) => Some(kept.open_box),
            None => None,
        }
    }

    /// How many of the first columns are known to be closed in the last part's box.
    pub fn closed_last(&self) -> usize
        ensures { result ≡ closed_of self.now }
    {
        match last_of(&self.kept) {
            Some(kept) => kept.open_box.closed,
            None => 0,
        }
    }

    /// Drops the first part. It moves no other.
    pub fn drop_first(&mut self)
        ensures { self.new ≡ drop 1 self.old }
    {
        if let Some(first) = take_first(&mut self.kept) {
            self.before = Some(first.least);
        }
    }

    /// Drops the last part.
    pub fn drop_last(&mut self)
        ensures { self.new ≡ front_of self.old }
    {
        drop_one(&mut self.kept);
    }

    /// Puts two parts in the last one's place, the first the last. After an error the parts are as
    /// they were.
    pub fn replace_last(&mut self, first: OpenBox, second: OpenBox) -> Result<(), AllocError>
        requires { 0 < length self.old }
        ensures ok { OnOk result (self.new ≡ front_of self.old ++ second ∷ first ∷ []) }
        ensures err { OnErr result (self.new ≡ self.old) }
    {
        put_two(&mut self.kept, self.before, first, second)
    }

    /// Of no part is it known any longer how the rows of its parent rested.
    pub fn unsettle(&mut self)
        ensures { self.new ≡ map unsettled self.old }
    {
        unsettle_all(&mut self.kept);
    }

    /// The least floor of the parts, if there is one. It takes no memory. It passes all parts where
    /// the first was dropped since the last time, and otherwise looks at the last alone.
    pub fn lowest(&mut self) -> Option<i128>
        ensures same { self.new ≡ self.old }
        ensures none { IsNone result ↔ (self.old ≡ []) }
        ensures some { IfSome result (IsLeastOf (floors_of self.old) (length self.old)) }
    {
        settle(&mut self.kept, self.before);
        self.before = None;
        least_in(&self.kept)
    }
}
