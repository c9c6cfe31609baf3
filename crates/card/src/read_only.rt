// A layer over any slot: the same card, never writable.
use crate::slot::Slot;

pub mod calls;
pub mod slot;

#[derive(Drop)]
pub struct ReadOnly<S: Slot> {
    below: S,
}
