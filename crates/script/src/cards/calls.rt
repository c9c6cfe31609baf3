// Making and changing cards.
ghost use Rattle.std.specs.Prelude.{◌≡◌, length, IfOk};
ghost use Rattle.card.specs.Cards.{part_of, put_code};
ghost use Rattle.card.specs.Declines.{making_code};
ghost use Rattle.script.specs.Cards.{new_card, put_into};

use crate::cards::LabelledCard;
use card::{CardDecline, Part};
use std::alloc::{AllocError, Global};

// The most bytes that a part has.
const PART: usize = 128;

impl LabelledCard {
    // A card with four empty parts; its label, number and state are the words of one line.
    pub(crate) fn new(
        heap: Global,
        label: &[u8],
        number: u32,
        writable: bool,
    ) -> Result<LabelledCard, AllocError>
        ensures { IfOk result (λ c. c ≡ new_card label.now number writable) }
    {
        Ok(LabelledCard {
            label: Vec::from_slice(heap, label)?,
            number,
            writable,
            id: Vec::new(heap),
            privilege: Vec::new(heap),
            ianda: Vec::new(heap),
            authorisation: Vec::new(heap),
        })
    }

    // Other bytes in a part, if they are not too many; the decline is promised by its number, as in `CardRecord::put`.
    pub(crate) fn put(&mut self, part: Part, bytes: Vec<u8>) -> Result<(), CardDecline>
        ensures answer { making_code result ≡ put_code (length bytes.items) }
        ensures after { self.new ≡ put_into self.old part bytes.items }
    {
        if bytes.len() > PART {
            return Err(CardDecline::PartTooLong);
        }
        match part {
            Part::Id => self.id = bytes,
            Part::Privilege => self.privilege = bytes,
            Part::Ianda => self.ianda = bytes,
            Part::Authorisation => self.authorisation = bytes,
        }
        Ok(())
    }

    // The bytes of a part.
    pub(crate) fn part(&self, part: Part) -> &[u8]
        ensures { result.now ≡ part_of self.now.card part }
    {
        match part {
            Part::Id => self.id.as_slice(),
            Part::Privilege => self.privilege.as_slice(),
            Part::Ianda => self.ianda.as_slice(),
            Part::Authorisation => self.authorisation.as_slice(),
        }
    }
}
