// Reading and writing certificates: the kinds differ in their fields, and share the rest.
ghost use Rattle.std.specs.Prelude.{◌≡◌, ℕ, ◌≤◌, List, length, Result};
ghost use Rattle.certificate.specs.declared.fault.Refusal.{Refusal};
ghost use Rattle.certificate.specs.declared.fields.Header.{Header as Heading};
ghost use Rattle.certificate.specs.Certificates.{Sealed, Answers, message_of, certificate};

use crate::fault::Refusal as Refused;
use crate::fields::{Header, Reading};
use crate::finish::{certificate, message};
use fixed::FixedBytes;

pub trait Certificate: Copy {
    // what bytes say as a certificate of this kind
    ghost of_bytes: { List ℕ → Result (Sealed Self) Refusal };

    // what the fields begin with
    ghost header_of: { Self → Heading };

    // the bytes of the fields, as the body holds them
    ghost field_bytes: { Self → List ℕ };

    // What `bytes` say as a certificate of this kind. A default would be no shorter: it would want a bound on the trait of bodies, which is the
    // crate's own.
    fn read(bytes: &[u8]) -> Result<Reading<'_, Self>, Refused>
        ensures { Answers (of_bytes bytes.now) result };

    // What the fields begin with: who issued the certificate, its serial number, and when it is good.
    fn header(self) -> Header
        ensures { result ≡ header_of self };

    // The fields, written one after another.
    fn fields(self) -> FixedBytes<128>
        ensures bytes { result ≡ field_bytes self }
        ensures len { length result ≤ 83 };

    // The message that a mark is made of.
    fn message(self) -> FixedBytes<128>
        ensures { result ≡ message_of (field_bytes self) }
    {
        message(self.fields().as_slice())
    }

    // The certificate with this mark.
    fn write(self, mark: [u8; 32]) -> FixedBytes<128>
        ensures { result ≡ certificate (field_bytes self) mark }
    {
        certificate(self.fields().as_slice(), &mark)
    }
}
