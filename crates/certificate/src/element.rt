// The element at the start of the input.
ghost use Rattle.std.specs.Prelude.{◌≡◌, ◌+◌, length, Ok, Err, IfOk, MatchResult};
ghost use Rattle.certificate.specs.Tags.{tag_byte};
ghost use Rattle.certificate.specs.Der.{element};

use crate::fault::Fault;
use crate::tag::Tag;

// The contents of the element of this tag, and what follows it.
#[tactic(auto, using(crate::proofs::Elements::element_none, crate::proofs::Elements::element_other, crate::proofs::Elements::element_one, crate::proofs::Elements::element_long))]
pub(crate) fn element(tag: Tag, bytes: &[u8]) -> Result<(&[u8], &[u8]), Fault>
    ensures reads { MatchResult result (λ p. element (tag_byte tag) bytes.now ≡ Ok (p.0.now, p.1.now)) (λ fault. element (tag_byte tag) bytes.now ≡ Err fault) }
    ensures room { IfOk result (λ p. length p.0.now + length p.1.now + 2 ≡ length bytes.now) }
{
    let [found, after @ ..] = bytes else {
        return Err(Fault::CutShort);
    };
    if *found != u8::from(tag) {
        return Err(Fault::Tag);
    }
    let [length, rest @ ..] = after else {
        return Err(Fault::CutShort);
    };
    if *length > 127 {
        return Err(Fault::LengthByte);
    }
    rest.split_at_checked(usize::from(*length))
        .ok_or(Fault::CutShort)
}
