// Putting a card into a slot and looking at it.
ghost use Rattle.std.specs.Prelude.{◌≡◌};

use super::RecordSlot;
use crate::record::CardRecord;

impl RecordSlot {
    // A slot with that card, or with none.
    pub fn new(card: Option<CardRecord>) -> Self
        ensures { result.card ≡ card }
    {
        RecordSlot { card }
    }

    // The card as it is now, if there is one.
    pub fn card(&self) -> Option<CardRecord>
        ensures { result ≡ self.now.card }
    {
        self.card
    }
}
