// The fields of certificates, a word each. A trait over words and the bytes of a certificate, with an error and definitions of its own, is longer.
ghost use Rattle.command.specs.Commands.{next_identity, next_header, next_base, next_grant};
ghost use Rattle.command.specs.Reading.{Reads};

use crate::command::Grant;
use crate::words::Words;
use certificate::{Base, Header, Identity};

impl<'a> Words<'a> {
    // ISSUER SERIAL
    pub(crate) fn identity(&mut self) -> Option<Identity>
        ensures { Reads (λ x. x) next_identity self.old self.new result }
    {
        let issuer = self.read()?;
        let serial = self.read()?;
        Some(Identity { issuer, serial })
    }

    // ISSUER SERIAL FIRST LAST
    pub(crate) fn header(&mut self) -> Option<Header>
        ensures { Reads (λ x. x) next_header self.old self.new result }
    {
        let identity = self.identity()?;
        let first = self.read()?;
        let last = self.read()?;
        Some(Header {
            identity,
            first,
            last,
        })
    }

    // BASEISSUER BASESERIAL CARD
    pub(crate) fn base(&mut self) -> Option<Base>
        ensures { Reads (λ x. x) next_base self.old self.new result }
    {
        let identity = self.identity()?;
        let card = self.read()?;
        Some(Base { identity, card })
    }

    // The fields of a header and a base, and then ROLE CLEARANCE
    pub(crate) fn grant(&mut self) -> Option<Grant>
        ensures { Reads (λ x. x) next_grant self.old self.new result }
    {
        let header = self.header()?;
        let base = self.base()?;
        let role = self.read()?;
        let clearance = self.read()?;
        Some(Grant {
            header,
            base,
            role,
            clearance,
        })
    }
}
