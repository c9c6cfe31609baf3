// The layer as a slot.
ghost use Rattle.std.specs.Prelude.{◌≡◌};
ghost use Rattle.card.specs.Cards.{read_only, write_code, written};
ghost use Rattle.card.specs.Declines.{code};
ghost use Rattle.card.specs.Layers.{fits_stays};

use super::ReadOnly;
use crate::decline::SlotDecline;
use crate::part::Part;
use crate::sequence::check_sequence;
use crate::slot::Slot;

impl<S: Slot> Slot for ReadOnly<S> {
    ghost card = { λ s. read_only (S.Slot.card s.below) };

    ghost fits = { λ s. fits_stays (S.Slot.card s.below) (S.Slot.fits s.below) };

    fn number(&self) -> Option<u32> {
        self.below.number()
    }

    fn read(&self, part: Part, buffer: &mut [u8]) -> Result<usize, SlotDecline> {
        self.below.read(part, buffer)
    }

    // Always declined; the slot below is not even asked to write.
    fn write(&mut self, bytes: &[u8]) -> Result<(), SlotDecline>
        ensures answer { code result ≡ write_code (read_only (S.Slot.card self.old.below)) bytes.now }
        ensures after { read_only (S.Slot.card self.new.below) ≡ written (read_only (S.Slot.card self.old.below)) bytes.now }
        ensures still { self.new ≡ self.old }
    {
        self.number().ok_or(SlotDecline::NoCard)?;
        check_sequence(bytes)?;
        Err(SlotDecline::NotWritable)
    }
}
