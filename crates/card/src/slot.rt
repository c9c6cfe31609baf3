// Slots.
ghost use Rattle.std.specs.Prelude.{◌≡◌, length, IfOk, Option};
ghost use Rattle.card.specs.Cards.{Card, Fits, number_of, read_code, read_length, read_into, write_code, written};
ghost use Rattle.card.specs.Declines.{code};

use crate::decline::SlotDecline;
use crate::part::Part;

// Where a card may lie.
pub trait Slot {
    // The card, if there is one.
    ghost card: { Self → Option Card };

    // The number of the card, if there is one.
    fn number(&self) -> Option<u32>
        ensures { result ≡ number_of (card self.now) };

    // Reads a part into the start of the buffer, and says how many bytes it has: with no heap, the buffer is the caller's. Here and below a
    // decline is promised by its number, as it is known by that.
    fn read(&self, part: Part, buffer: &mut [u8]) -> Result<usize, SlotDecline>
        ensures answer { code result ≡ read_code (card self.now) part (length buffer.old) }
        ensures count { IfOk result (λ n. n ≡ read_length (card self.now) part) }
        ensures after { buffer.new ≡ read_into (card self.now) part buffer.old };

    // Replaces the authorisation.
    fn write(&mut self, bytes: &[u8]) -> Result<(), SlotDecline>
        ensures answer { code result ≡ write_code (card self.old) bytes.now }
        ensures after { card self.new ≡ written (card self.old) bytes.now };

    // Its number has 32 bits, and none of its parts more than 128 bytes.
    ghost fits: { (s : Self) → Fits (card s) };
}
