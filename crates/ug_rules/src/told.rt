use ug_frames::Order;

/// An order for a rank.
#[derive(Drop)]
pub struct Told {
    pub rank: u32,
    pub order: Order,
}
