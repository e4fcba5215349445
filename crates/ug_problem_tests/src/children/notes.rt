use std::alloc::Global;
use ug_real::{Departure, Watcher};

/// Keeps why ranks are lost, as it is printed.
#[derive(Drop)]
pub struct Notes<'a> {
    pub alloc: Global,
    pub lines: &'a mut Vec<String>,
}

impl Watcher for Notes<'_> {
    fn gone(&mut self, rank: u32, why: &Departure) {
        if let Ok(line) = format!(in self.alloc; "{rank} {why}") {
            let _ = self.lines.push(line);
        }
    }

    fn silent(&mut self, rank: u32, seconds: u64) {
        if let Ok(line) = format!(in self.alloc; "{rank} silent for {seconds} s") {
            let _ = self.lines.push(line);
        }
    }
}

// Whether the lines are these.
fn is_same(lines: &[String], wanted: &[&str]) -> bool {
    if lines.len() != wanted.len() {
        return false;
    }
    for (line, it) in lines.iter().zip(wanted) {
        if line.as_str() != *it {
            return false;
        }
    }
    true
}

/// Whether the lines are these, once they are sorted.
pub fn are_lines(mut lines: Vec<String>, wanted: &[&str]) -> bool {
    let so = lines.sort().is_ok() && is_same(&lines, wanted);
    drop(lines);
    so
}
