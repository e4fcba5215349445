use std::snapshot::Snapshot;

/// What lies in the slot: the value, and what the last turn added.
#[derive(Drop)]
pub struct Held<V, E> {
    pub value: V,
    pub said: Snapshot<Option<E>>,
}
