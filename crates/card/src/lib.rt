// Cards, the slots that hold them, and a layer over slots.
#![tactic(auto)]

mod decline;
mod part;
mod read_only;
mod record;
mod record_slot;
mod sequence;
mod slot;

pub use decline::{CardDecline, SlotDecline};
pub use part::Part;
pub use read_only::ReadOnly;
pub use record::CardRecord;
pub use record_slot::RecordSlot;
pub use slot::Slot;

#[cfg(test)]
mod tests {
    use super::*;
    use std::process::Abort;
    use std::test::Fail;

    // A slot with the card 300, whose ID has three bytes, its privilege as many as it can have.
    fn slot(writable: bool) -> Result<RecordSlot, CardDecline> {
        let mut card = CardRecord::new(300, writable);
        card.put(Part::Id, &[1, 2, 3])?;
        card.put(Part::Privilege, &[7; 128])?;
        Ok(RecordSlot::new(Some(card)))
    }

    // A write of a SEQUENCE with `inside` bytes in it.
    fn write<S: Slot>(slot: &mut S, inside: u8) -> Result<(), SlotDecline> {
        let mut bytes = [0; 257];
        bytes[0] = 0x30;
        bytes[1] = inside;
        slot.write(&bytes[0..inside as usize + 2])
    }

    // What the card 300 answers to reads.
    fn reads<S: Slot>(rt: &impl Abort, slot: &S) {
        let mut buffer = [9; 4];
        let answers = [
            slot.read(Part::Privilege, &mut buffer),
            slot.read(Part::Id, &mut buffer),
            slot.read(Part::Privilege, &mut [0; 128]),
            slot.read(Part::Ianda, &mut []),
        ];
        assert_eq!(rt;
            answers,
            [Err(SlotDecline::ShortBuffer), Ok(3), Ok(128), Ok(0)]
        );
        assert_eq!(rt; buffer, [1, 2, 3, 9]);
        assert_eq!(rt; slot.number(), Some(300));
    }

    // What a slot without a card answers.
    fn declines<S: Slot>(rt: &impl Abort, slot: &mut S) {
        assert_eq!(rt; slot.number(), None);
        assert_eq!(rt; slot.read(Part::Id, &mut [0; 4]), Err(SlotDecline::NoCard));
        assert_eq!(rt; slot.write(&[]), Err(SlotDecline::NoCard));
    }

    #[test]
    fn parts(rt: HostRuntime) {
        let mut card = CardRecord::new(300, false);
        let answers = [card.put(Part::Id, &[7; 128]), card.put(Part::Id, &[8; 129])];
        assert_eq!(rt; answers, [Ok(()), Err(CardDecline::PartTooLong)]);
        assert!(rt;
            card.part(Part::Id) == [7; 128].as_slice() && card.part(Part::Ianda).is_empty()
        );
        assert!(rt; card.number() == 300 && !card.writable());
    }

    // A part, copied into a buffer that every part fits, as its bound of 128 bytes allows with no test of its length.
    fn copied(card: &CardRecord, part: Part) -> ([u8; 128], u8) {
        let mut buffer = [0; 128];
        let bytes = card.part(part);
        buffer[..bytes.len()].copy_from_slice(bytes);
        (buffer, bytes.len() as u8)
    }

    #[test]
    fn copies(rt: HostRuntime) -> Result<(), Fail> {
        let mut card = CardRecord::new(300, false);
        card.put(Part::Ianda, &[7; 128])?;
        assert_eq!(rt; copied(&card, Part::Ianda), ([7; 128], 128));
        assert_eq!(rt; copied(&card, Part::Id), ([0; 128], 0));
        Ok(())
    }

    #[test]
    fn writes(rt: HostRuntime) -> Result<(), Fail> {
        let mut slot = slot(true)?;
        let answers = [
            slot.write(&[]),
            slot.write(&[0x30, 1, 7, 7]),
            write(&mut slot, 127),
            write(&mut slot, 126),
            write(&mut slot, 125),
        ];
        let no = Err(SlotDecline::NotSequence);
        assert_eq!(rt; answers, [no, no, no, Ok(()), Ok(())]);
        reads(&rt, &slot);
        // A `match`: over `ok_or` and `?` the proof of the test stays open.
        match slot.card() {
            Some(card) => {
                assert_eq!(rt; card.part(Part::Authorisation).len(), 127);
                Ok(())
            },
            None => Err(Fail::new("no card")),
        }
    }

    #[test]
    fn no_writes(rt: HostRuntime) -> Result<(), Fail> {
        let mut held = slot(false)?;
        let mut layer = ReadOnly::new(slot(true)?);
        let answers = [
            write(&mut held, 127),
            write(&mut layer, 127),
            write(&mut held, 126),
            write(&mut layer, 126),
        ];
        let no = Err(SlotDecline::NotSequence);
        let shut = Err(SlotDecline::NotWritable);
        assert_eq!(rt; answers, [no, no, shut, shut]);
        assert_eq!(rt; layer.read(Part::Authorisation, &mut []), Ok(0));
        let card = held.card();
        assert!(rt; matches!(card, Some(card) if card.part(Part::Authorisation).is_empty()));
        reads(&rt, &layer);
        Ok(())
    }

    #[test]
    fn no_card(rt: HostRuntime) {
        declines(&rt, &mut RecordSlot::new(None));
        declines(&rt, &mut ReadOnly::new(RecordSlot::new(None)));
    }

    #[test]
    fn numbers(rt: HostRuntime) {
        assert_eq!(rt; u32::from(SlotDecline::NoCard), 20);
        assert_eq!(rt; u32::from(CardDecline::PartTooLong), 25);
    }
}
