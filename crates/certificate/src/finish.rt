// From the fields of a body to the sealed message and the certificate.
ghost use Rattle.std.specs.Prelude.{◌≡◌, ◌+◌, ◌≤◌, length};
ghost use Rattle.certificate.specs.Certificates.{message_of, certificate};

use crate::tag::Tag;
use crate::writing::element;
use fixed::FixedBytes;

// The message: the body with its header.
#[tactic(auto, unfolding(crate::specs::Certificates::message_of))]
pub(crate) fn message(fields: &[u8]) -> FixedBytes<128>
    requires { length fields.now ≤ 83 }
    ensures bytes { result ≡ message_of fields.now }
    ensures len { length result ≡ length fields.now + 2 }
{
    let mut body = FixedBytes::new();
    element(&mut body, Tag::Sequence, fields);
    body
}

// The certificate: body and mark.
#[tactic(auto, unfolding(crate::specs::Certificates::certificate))]
pub(crate) fn certificate(fields: &[u8], mark: &[u8; 32]) -> FixedBytes<128>
    requires { length fields.now ≤ 83 }
    ensures { result ≡ certificate fields.now mark.now }
{
    let mut contents = message(fields);
    element(&mut contents, Tag::OctetString, mark);
    let mut whole = FixedBytes::new();
    element(&mut whole, Tag::Sequence, contents.as_slice());
    whole
}
