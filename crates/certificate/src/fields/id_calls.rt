// ID certificates.
ghost use Rattle.certificate.specs.Certificates.{id_of};
ghost use Rattle.certificate.specs.Fields.{id_bytes};

use crate::body::read::certificate as read_certificate;
use crate::certificate::Certificate;
use crate::fault::Refusal;
use crate::field_writing::headed;
use crate::fields::{Header, Id, Reading};
use crate::writing::number;
use fixed::FixedBytes;

impl Certificate for Id {
    ghost of_bytes = { id_of };

    ghost header_of = { λ x. x.header };

    ghost field_bytes = { id_bytes };

    fn read(bytes: &[u8]) -> Result<Reading<'_, Id>, Refusal> {
        read_certificate(bytes)
    }

    fn header(self) -> Header {
        self.header
    }

    #[tactic(auto, using(std::proofs::lemmas::List::append_assoc), unfolding(crate::specs::Fields::id_bytes))]
    fn fields(self) -> FixedBytes<128> {
        let mut out = headed(self.header);
        number(&mut out, self.subject);
        out
    }
}
