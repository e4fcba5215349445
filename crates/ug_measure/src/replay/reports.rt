ghost use Rattle.std.specs.Prelude.{IfSome};
ghost use Rattle.ug_rules.specs.Hearing.{IsHearable};

use crate::replay::words::{bound, count, small, value, word};
use std::alloc::Global;
use ug_frames::{Ending, Report};
use ug_nodes::{Change, Changes, Ticket};
use ug_rows::Point;

fn ticket(word: &str) -> Option<Ticket> {
    let (run, number) = word.split_once('.')?;
    let run = count(run)?;
    let number = count(number)?;
    Some(Ticket { run, number })
}

fn change(word: &str) -> Option<Change> {
    let (column, bounds) = word.split_once('=')?;
    let (low, high) = bounds.split_once("..")?;
    let column = small(column)?;
    let low = bound(low)?;
    let high = bound(high)?;
    Some(Change { column, low, high })
}

fn push_changes(list: &mut Vec<Change>, word: &str) -> Option<()> {
    if word != "[]" {
        for part in word.split(',') {
            list.push(change(part)?).ok()?;
        }
    }
    Some(())
}

fn changes(alloc: Global, word: &str) -> Option<Changes> {
    let mut list = Vec::new(alloc);
    if push_changes(&mut list, word).is_none() {
        drop(list);
        return None;
    }
    Changes::checked(list)
}

fn push_values(values: &mut Vec<i32>, word: &str) -> Option<()> {
    let inner = word.strip_prefix('[')?.strip_suffix(']')?;
    for part in inner.split(',') {
        values.push(bound(part)?).ok()?;
    }
    Some(())
}

fn point(alloc: Global, word: &str) -> Option<Point> {
    let mut values = Vec::new(alloc);
    if push_values(&mut values, word).is_none() {
        drop(values);
        return None;
    }
    Some(Point::from_vec(values))
}

fn solution(alloc: Global, words: &[&str]) -> Option<Report>
    ensures { IfSome result IsHearable }
{
    let ticket = ticket(word(words, 3))?;
    let point = point(alloc, word(words, 4))?;
    Some(Report::Solution { ticket, point })
}

fn hand(alloc: Global, words: &[&str]) -> Option<Report>
    ensures { IfSome result IsHearable }
{
    let ticket = ticket(word(words, 3))?;
    let number = count(word(words, 4))?;
    let changes = changes(alloc, word(words, 5))?;
    Some(Report::Hand {
        ticket,
        number,
        changes,
    })
}

fn state(words: &[&str]) -> Option<Report>
    ensures { IfSome result IsHearable }
{
    let ticket = ticket(word(words, 3))?;
    let open = count(word(words, 4))?;
    let floor = value(word(words, 5))?;
    if open == 0 {
        return None;
    }
    Some(Report::State {
        ticket,
        open,
        floor,
    })
}

fn done(words: &[&str]) -> Option<Report>
    ensures { IfSome result IsHearable }
{
    let ticket = ticket(word(words, 3))?;
    let cutoff = value(word(words, 4));
    let count = count(word(words, 5))?;
    Some(Report::Done {
        ticket,
        cutoff,
        count,
        end: Ending::Plain,
    })
}

pub fn report(alloc: Global, words: &[&str]) -> Option<Report>
    ensures { IfSome result IsHearable }
{
    match word(words, 2) {
        "Ready" => Some(Report::Ready),
        "Ended" => Some(Report::Ended),
        "Solution" => solution(alloc, words),
        "Hand" => hand(alloc, words),
        "State" => state(words),
        _ => done(words),
    }
}
