use crate::held::Held;
use crate::lasting::Lasting;
use crate::view::View;
use atomic_table::Seat as Place;

/// A seat at the lock: a pass, which takes turns, or a note of what a pass has seen.
#[derive(Drop)]
pub struct Seat<V, O, E> {
    pub(crate) place: Place<Option<Held<V, E>>, View<O, E>>,
    pub(crate) number: u64,
}

/// A seat at a lock round this value.
pub type SeatOf<V> = Seat<V, <V as Lasting>::Opening, <V as Lasting>::Entry>;

/// What a seat is at the table below.
pub(crate) type PlaceOf<V> = Place<
    Option<Held<V, <V as Lasting>::Entry>>,
    View<<V as Lasting>::Opening, <V as Lasting>::Entry>,
>;
