use ug_records::RecordStage;

/// What comes next of an image: a line before a list, or an item of one.
#[derive(Clone, Copy, PartialEq, Eq)]
pub enum Stage {
    /// The version, up to the length of the record.
    Front,
    /// This of the problem's record, or behind its end the head of the best point.
    Problem(RecordStage),
    /// This value of the best point, or behind the last what stands before the nodes.
    Value(usize),
    /// The head of this node, or behind the last nothing.
    Node(usize),
    /// A change of a node, or the end of the node behind its last change.
    Change(usize, usize),
}
