// Privilege certificates, and authorisation certificates, which have the same form.
ghost use Rattle.certificate.specs.Certificates.{privilege_of};
ghost use Rattle.certificate.specs.Fields.{privilege_bytes};

use crate::body::read::certificate as read_certificate;
use crate::certificate::Certificate;
use crate::fault::Refusal;
use crate::field_writing::based;
use crate::fields::{Header, Privilege, Reading};
use crate::judge::judge;
use crate::numbers::Numbers;
use crate::writing::number;
use clearance::Clearance;
use fixed::FixedBytes;

impl<C: Clearance> Certificate for Privilege<C> {
    ghost of_bytes = { privilege_of C.Clearance.of_number };

    ghost header_of = { λ x. x.header };

    ghost field_bytes = { privilege_bytes C.Clearance.number_of };

    #[tactic(auto, unfolding(crate::specs::Certificates::then, crate::specs::Certificates::privilege_of))]
    fn read(bytes: &[u8]) -> Result<Reading<'_, Privilege<C>>, Refusal> {
        let x = read_certificate::<Numbers>(bytes)?;
        Ok(Reading {
            fields: judge(x.fields)?,
            message: x.message,
            mark: x.mark,
        })
    }

    fn header(self) -> Header {
        self.header
    }

    #[tactic(auto, using(std::proofs::lemmas::List::append_assoc), unfolding(crate::specs::Fields::privilege_bytes))]
    fn fields(self) -> FixedBytes<128> {
        let mut out = based(self.header, self.base);
        number(&mut out, self.role.into());
        number(&mut out, self.clearance.number());
        out
    }
}
