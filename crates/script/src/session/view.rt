// The account of a card.
ghost use Rattle.std.specs.Prelude.{◌≡◌, ◌++◌, OnOk};
ghost use Rattle.script.specs.Cards.{card_named};
ghost use Rattle.script.specs.Sessions.{Takes, Prints, done, on_card, shown_text};
ghost use Rattle.script.specs.Views.{kind_told, part_told, card_text};

use crate::cards::LabelledCard;
use crate::session::Session;
use crate::stop::Stop;
use crate::told::calls::told;
use account::{PartLine, card_line, part_line};
use card::Part;
use certificate::{Ianda, Id, Privilege};
use clearance::{Class, Compartments};
use command::Kind;
use std::alloc::AllocError;

impl Session {
    // What a part says whose clearance is of the kind that the script has chosen: as in `put_grant_by_kind`, a choice of the script becomes a
    // type, and a call over every kind for the two places would have more lines than their two matches.
    fn told_by_kind(&self, part: Part, bytes: &[u8]) -> PartLine
        ensures { result ≡ kind_told self.now.kind self.now.keys part bytes.now }
    {
        let keys = self.keys.as_slice();
        match self.kind {
            None => PartLine::NoKind(part),
            Some(Kind::Class) => told::<Privilege<Class>>(keys, part, bytes),
            Some(Kind::Compartments) => told::<Privilege<Compartments>>(keys, part, bytes),
        }
    }

    // What a part of a card says.
    fn part(&self, card: &LabelledCard, part: Part) -> PartLine
        ensures { result ≡ part_told self.now.kind self.now.keys card.now.card part }
    {
        let keys = self.keys.as_slice();
        let bytes = card.part(part);
        match part {
            Part::Id => told::<Id>(keys, part, bytes),
            Part::Ianda => told::<Ianda>(keys, part, bytes),
            Part::Privilege | Part::Authorisation => self.told_by_kind(part, bytes),
        }
    }

    // The card and its four parts, a line each, as the definition has them one by one.
    #[tactic(auto, using(std::proofs::lemmas::List::append_assoc), unfolding(crate::specs::Views::card_text))]
    fn account(&self, card: &LabelledCard, out: &mut Vec<u8>) -> Result<(), AllocError>
        ensures { OnOk result (out.new.items ≡ out.old.items ++ card_text self.now.kind self.now.keys card.now) }
    {
        let label = card.label.as_slice();
        card_line(out, label, card.number, card.writable)?;
        part_line(out, self.part(card, Part::Id))?;
        part_line(out, self.part(card, Part::Privilege))?;
        part_line(out, self.part(card, Part::Ianda))?;
        part_line(out, self.part(card, Part::Authorisation))
    }

    // The account of the card of a label.
    pub(crate) fn show(&self, label: &[u8], out: &mut Vec<u8>) -> Result<(), Stop>
        ensures answer { Takes (on_card self.now (card_named self.now.cards label.now) (done self.now)) self.now result }
        ensures printed { Prints (shown_text self.now (card_named self.now.cards label.now)) out.old.items out.new.items result }
    {
        let i = self.place_of(label)?;
        Ok(self.account(&self.cards[i], out)?)
    }
}
