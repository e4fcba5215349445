use ug_lists::Items;

/// The demand of the pool.
#[derive(Drop)]
pub enum Wanted {
    /// That this rank hands this many nodes.
    Ask { rank: u32, count: u64 },
    /// That these ranks hand no more.
    Enough(Items<u32>),
    Nothing,
}
