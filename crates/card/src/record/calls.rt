// Making a card and reading its record.
ghost use Rattle.std.specs.Prelude.{◌≡◌, ◌≤◌, length, OnErr};
ghost use Rattle.card.specs.Cards.{part_of, blank_card, put_code, put_in, with_part};
ghost use Rattle.card.specs.Declines.{making_code};
ghost use Rattle.card.specs.Records.{card_in};

use super::CardRecord;
use crate::decline::CardDecline;
use crate::part::Part;
use fixed::FixedBytes;

impl CardRecord {
    // A card with four empty parts.
    pub fn new(number: u32, writable: bool) -> Self
        ensures { card_in result ≡ blank_card number writable }
    {
        let empty = FixedBytes::new();
        CardRecord {
            number,
            id: empty,
            privilege: empty,
            ianda: empty,
            authorisation: empty,
            writable,
        }
    }

    // Replaces a part, whether the card is writable or not. A decline is promised by its number, as it is known by that.
    pub fn put(&mut self, part: Part, bytes: &[u8]) -> Result<(), CardDecline>
        ensures answer { making_code result ≡ put_code (length bytes.now) }
        ensures after { card_in self.new ≡ put_in (card_in self.old) part bytes.now }
        ensures declined { OnErr result (self.new ≡ self.old) }
    {
        self.set_part(part, FixedBytes::try_from(bytes)?);
        Ok(())
    }

    // Replaces a part by bytes that have room in it. `part` names the fields again, since no loan for writing comes of its `&self`;
    // and they are fields and no array of four, as the contracts have them by name.
    pub(crate) fn set_part(&mut self, part: Part, bytes: FixedBytes<128>)
        ensures { card_in self.new ≡ with_part (card_in self.old) part bytes }
    {
        match part {
            Part::Id => self.id = bytes,
            Part::Privilege => self.privilege = bytes,
            Part::Ianda => self.ianda = bytes,
            Part::Authorisation => self.authorisation = bytes,
        }
    }

    // The bytes of a part.
    pub fn part(&self, part: Part) -> &[u8]
        ensures value { result.now ≡ part_of (card_in self.now) part }
        ensures within { length result.now ≤ 128 }
    {
        match part {
            Part::Id => self.id.as_slice(),
            Part::Privilege => self.privilege.as_slice(),
            Part::Ianda => self.ianda.as_slice(),
            Part::Authorisation => self.authorisation.as_slice(),
        }
    }

    // The number of the card.
    pub fn number(&self) -> u32
        ensures { result ≡ (card_in self.now).number }
    {
        self.number
    }

    // Whether its authorisation can be written.
    pub fn writable(&self) -> bool
        ensures { result ≡ (card_in self.now).writable }
    {
        self.writable
    }
}
