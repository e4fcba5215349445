use ug_branch::{Branch, Half};

/// A branching: where, and which half comes first.
#[derive(Clone, Copy)]
pub struct Branching {
    pub branch: Branch,
    pub first: Half,
}
