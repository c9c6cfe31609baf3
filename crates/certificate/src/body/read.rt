// Reading a certificate of any kind.
ghost use Rattle.std.specs.Prelude.{◌≡◌};
ghost use Rattle.certificate.specs.Certificates.{filled, Answers, certified};

use crate::body::Body;
use crate::envelope::calls::{close, open};
use crate::fault::Refusal;
use crate::fields::Reading;
use crate::reader::Reader;

// The fields that a body holds, and nothing after them.
#[tactic(auto, unfolding(crate::specs::Placed::followed, crate::specs::Certificates::filled))]
fn fill<B: Body>(mut body: Reader) -> Result<B, Refusal>
    ensures { result ≡ filled B.Body.fields_at body.entry }
{
    let fields = B::fields(&mut body)?;
    body.end()?;
    Ok(fields)
}

#[tactic(auto, unfolding(crate::specs::Certificates::then, crate::specs::Certificates::certified))]
pub(crate) fn certificate<B: Body>(bytes: &[u8]) -> Result<Reading<'_, B>, Refusal>
    ensures { Answers (certified B.Body.fields_at bytes.now) result }
{
    let envelope = open(bytes)?;
    let fields = fill::<B>(envelope.body)?;
    let mark = close(envelope.rest, envelope.after)?;
    Ok(Reading {
        fields,
        message: envelope.message,
        mark,
    })
}
