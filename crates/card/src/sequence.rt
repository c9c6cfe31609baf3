// What may be written to a card.
ghost use Rattle.std.specs.Prelude.{◌≡◌, cond, Ok, Err};
ghost use Rattle.card.specs.Cards.{sequence};
ghost use Rattle.card.specs.declared.decline.SlotDecline.TheVariants.{NotSequence};

use crate::decline::SlotDecline;

// Whether the bytes are one SEQUENCE of at most 128 bytes that fills them.
pub(crate) fn check_sequence(bytes: &[u8]) -> Result<(), SlotDecline>
    ensures { result ≡ cond (sequence bytes.now) (Ok tt) (Err NotSequence) }
{
    match bytes {
        [0x30, count, inside @ ..] if inside.len() <= 126 && usize::from(*count) == inside.len() =>
            { Ok(()) },
        _ => Err(SlotDecline::NotSequence),
    }
}
