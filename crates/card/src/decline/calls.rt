// What the declines become, and what becomes one.
ghost use Rattle.std.specs.Prelude.{◌≡◌};
ghost use Rattle.card.specs.Declines.{slot_number, card_number};
ghost use Rattle.card.specs.declared.decline.CardDecline.TheVariants.{PartTooLong};

use super::{CardDecline, SlotDecline};
use fixed::TooLong;

// The number by which it is told.
impl From<SlotDecline> for u32 {
    ghost from_gives = { λ decline number. number ≡ slot_number decline };

    fn from(decline: SlotDecline) -> Self {
        decline as u32
    }
}

// The number by which it is told.
impl From<CardDecline> for u32 {
    ghost from_gives = { λ decline number. number ≡ card_number decline };

    fn from(decline: CardDecline) -> Self {
        decline as u32
    }
}

// Bytes that are too many for a part.
impl From<TooLong> for CardDecline {
    ghost from_gives = { λ _ decline. decline ≡ PartTooLong };

    fn from(_: TooLong) -> Self {
        CardDecline::PartTooLong
    }
}
