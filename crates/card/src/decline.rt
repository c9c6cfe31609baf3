// Why a call on a card is declined, each case with the number by which it is told.

pub mod calls;

// What a slot declines.
#[derive(Clone, Copy, PartialEq, Eq, Debug)]
pub enum SlotDecline {
    // There is no card.
    NoCard = 20,
    // The buffer is shorter than the part.
    ShortBuffer = 21,
    // The card's authorisation cannot be written.
    NotWritable = 22,
    // The bytes are not one SEQUENCE of at most 128 bytes that fills them.
    NotSequence = 23,
}

// What the making of a card declines.
#[derive(Clone, Copy, PartialEq, Eq, Debug)]
pub enum CardDecline {
    // More bytes than a part can have.
    PartTooLong = 25,
}
