// Opening an envelope, and closing it.
ghost use Rattle.std.specs.Prelude.{◌≡◌};
ghost use Rattle.certificate.specs.Certificates.{closed};
ghost use Rattle.certificate.specs.Envelopes.{Opens};

use crate::envelope::Envelope;
use crate::fault::Refusal;
use crate::reader::Reader;

// The two headers.
#[tactic(auto, using(crate::proofs::States::sequence_room, crate::proofs::States::sequence_front), unfolding(crate::specs::Placed::followed, crate::specs::Certificates::opened))]
pub(crate) fn open(bytes: &[u8]) -> Result<Envelope<'_>, Refusal>
    ensures { Opens bytes.now result }
{
    let mut after = Reader::new(bytes);
    let mut rest = after.sequence()?;
    let contents = rest.left();
    let body = rest.sequence()?;
    let end = body.left().len() + 2;
    Ok(Envelope {
        message: &contents[..end],
        body,
        rest,
        after,
    })
}

// The mark, and nothing after it or after the whole.
#[tactic(auto, unfolding(crate::specs::Placed::followed, crate::specs::Certificates::closed))]
pub(crate) fn close(mut rest: Reader, after: Reader) -> Result<[u8; 32], Refusal>
    ensures { result ≡ closed rest.entry after.entry }
{
    let mark = rest.octets()?;
    rest.end()?;
    after.end()?;
    Ok(mark)
}
