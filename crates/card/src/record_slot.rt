// A slot that is a record.
use crate::record::CardRecord;

pub mod calls;
pub mod slot;

#[derive(Clone, Copy)]
pub struct RecordSlot {
    card: Option<CardRecord>,
}
