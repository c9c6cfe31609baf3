// The record as a slot.
ghost use Rattle.card.specs.Records.{held_card, holds_fit};

use super::RecordSlot;
use crate::decline::SlotDecline;
use crate::part::Part;
use crate::record::CardRecord;
use crate::sequence::check_sequence;
use crate::slot::Slot;
use fixed::FixedBytes;

impl Slot for RecordSlot {
    ghost card = { λ s. held_card s.card };

    ghost fits = { λ s. holds_fit s.card };

    fn number(&self) -> Option<u32> {
        self.card.as_ref().map(CardRecord::number)
    }

    fn read(&self, part: Part, buffer: &mut [u8]) -> Result<usize, SlotDecline> {
        let card = self.card.as_ref().ok_or(SlotDecline::NoCard)?;
        let bytes = card.part(part);
        if bytes.len() > buffer.len() {
            return Err(SlotDecline::ShortBuffer);
        }
        buffer[..bytes.len()].copy_from_slice(bytes);
        Ok(bytes.len())
    }

    fn write(&mut self, bytes: &[u8]) -> Result<(), SlotDecline> {
        let card = self.card.as_mut().ok_or(SlotDecline::NoCard)?;
        check_sequence(bytes)?;
        if !card.writable() {
            return Err(SlotDecline::NotWritable);
        }
        // Filled here: as a call's answer the bytes would be copied again, and a write take twice the time.
        let mut authorisation = FixedBytes::new();
        authorisation.extend(bytes).unwrap();
        card.set_part(Part::Authorisation, authorisation);
        Ok(())
    }
}
