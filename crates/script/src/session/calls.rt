// Carrying out lines.
ghost use Rattle.std.specs.Prelude.{◌≡◌, position};
ghost use Rattle.command.specs.Words.{unhex};
ghost use Rattle.script.specs.Cards.{has_label};
ghost use Rattle.script.specs.Issues.{sealed_body, grant_bytes};
ghost use Rattle.script.specs.Sessions.{fresh, Place, card_step, put_step, part_step, grant_put, grant_step, Takes};

use crate::cards::LabelledCard;
use crate::issue::{issued, judged};
use crate::session::Session;
use crate::stop::Stop;
use account::Reason;
use card::Part;
use certificate::Certificate;
use clearance::{Class, Clearance, Compartments};
use command::{Grant, Kind, bytes_of};
use std::alloc::{AllocError, Global};

impl Session {
    // Before the first line.
    pub(crate) fn new(heap: Global) -> Session
        ensures { result ≡ fresh }
    {
        Session {
            kind: None,
            keys: Vec::new(heap),
            cards: Vec::new(heap),
        }
    }

    // The place of the first card of a label, if there is one.
    fn position(&self, label: &[u8]) -> Option<usize>
        ensures { result ≡ position (has_label label.now) self.now.cards }
    {
        self.cards
            .iter()
            .position(|card| card.label.as_slice() == label)
    }

    // The same, for a line that wants such a card.
    pub(crate) fn place_of(&self, label: &[u8]) -> Result<usize, Reason>
        ensures { Place self.now.cards label.now result }
    {
        self.position(label).ok_or(Reason::NoSuchCard)
    }

    // A new card, unless its label is taken.
    pub(crate) fn add_card(&mut self, label: &[u8], number: u32, writable: bool) -> Result<(), Stop>
        ensures { Takes (card_step self.old label.now number writable) self.new result }
    {
        if let Ok(_) = self.place_of(label) {
            return Err(Stop::Refused(Reason::CardNamedBefore));
        }
        let card = LabelledCard::new(*self.cards.allocator(), label, number, writable)?;
        self.cards.push(card).map_err(AllocError::from)?;
        Ok(())
    }

    // The bytes go into a part of the card of the label. Label and part stay apart: only one command has both in its line, and a pair would be
    // made at four calls to be taken apart here.
    fn put(&mut self, label: &[u8], part: Part, bytes: Vec<u8>) -> Result<(), Reason>
        ensures { (self.new, result) ≡ part_step self.old label.now part bytes.items }
    {
        let i = self.place_of(label)?;
        self.cards[i].put(part, bytes).map_err(Reason::Declined)
    }

    // A part given as hex digits.
    pub(crate) fn put_hex(&mut self, label: &[u8], part: Part, hex: &[u8]) -> Result<(), Stop>
        ensures { Takes (part_step self.old label.now part (unhex hex.now)) self.new result }
    {
        self.place_of(label)?;
        let bytes = bytes_of(*self.cards.allocator(), hex)?;
        Ok(self.put(label, part, bytes)?)
    }

    // A certificate of any kind.
    pub(crate) fn put_certificate<T: Certificate>(
        &mut self,
        label: &[u8],
        part: Part,
        fields: T,
    ) -> Result<(), Stop>
        ensures { Takes (put_step self.old label.now part (sealed_body self.old.keys (T.Certificate.header_of fields).identity.issuer (T.Certificate.field_bytes fields))) self.new result }
    {
        let bytes = issued(self.keys.as_slice(), fields);
        let bytes = Vec::from_slice(*self.cards.allocator(), bytes.as_slice())?;
        Ok(self.put(label, part, bytes)?)
    }

    // A privilege or an authorisation certificate, over a clearance kind.
    fn put_grant<C: Clearance>(
        &mut self,
        label: &[u8],
        part: Part,
        grant: Grant,
    ) -> Result<(), Stop>
        ensures { Takes (grant_put self.old label.now part (grant_bytes C.Clearance.of_number C.Clearance.number_of self.old.keys grant)) self.new result }
    {
        let fields = judged::<C>(grant).ok_or(Reason::BadRoleOrClearance)?;
        self.put_certificate(label, part, fields)
    }

    // The same, over the kind that was chosen: what a script chooses becomes a type here, and for reading in `told_by_kind`.
    pub(crate) fn put_grant_by_kind(
        &mut self,
        label: &[u8],
        part: Part,
        grant: Grant,
    ) -> Result<(), Stop>
        ensures { Takes (grant_step self.old label.now part grant) self.new result }
    {
        self.place_of(label)?;
        let Some(kind) = self.kind else {
            return Err(Stop::Refused(Reason::NoClearanceKind));
        };
        match kind {
            Kind::Class => self.put_grant::<Class>(label, part, grant),
            Kind::Compartments => self.put_grant::<Compartments>(label, part, grant),
        }
    }
}
