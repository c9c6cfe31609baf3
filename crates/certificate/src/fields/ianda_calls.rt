// I&A certificates.
ghost use Rattle.certificate.specs.Certificates.{ianda_of};
ghost use Rattle.certificate.specs.Fields.{ianda_bytes};

use crate::body::read::certificate as read_certificate;
use crate::certificate::Certificate;
use crate::fault::Refusal;
use crate::field_writing::based;
use crate::fields::{Header, Ianda, Reading};
use crate::tag::Tag;
use crate::writing::element;
use fixed::FixedBytes;

impl Certificate for Ianda {
    ghost of_bytes = { ianda_of };

    ghost header_of = { λ x. x.header };

    ghost field_bytes = { ianda_bytes };

    fn read(bytes: &[u8]) -> Result<Reading<'_, Ianda>, Refusal> {
        read_certificate(bytes)
    }

    fn header(self) -> Header {
        self.header
    }

    #[tactic(auto, using(std::proofs::lemmas::List::append_assoc), unfolding(crate::specs::Fields::ianda_bytes))]
    fn fields(self) -> FixedBytes<128> {
        let mut out = based(self.header, self.base);
        element(&mut out, Tag::OctetString, &self.template);
        out
    }
}
