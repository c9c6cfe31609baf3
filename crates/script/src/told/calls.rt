// Reading parts.
ghost use Rattle.std.specs.Prelude.{◌≡◌};
ghost use Rattle.script.specs.Views.{told};

use crate::marks::verdict;
use crate::told::Told;
use account::PartLine;
use card::Part;
use seal::Key;

// What a part says as a certificate of some kind.
pub(crate) fn told<T: Told>(keys: &[Key], part: Part, bytes: &[u8]) -> PartLine
    ensures { result ≡ told T.Told.line_of T.Certificate.header_of keys.now part (T.Certificate.of_bytes bytes.now) }
{
    match T::read(bytes) {
        Ok(x) => {
            let issuer = x.fields.header().identity.issuer;
            let found = verdict(keys, issuer, x.message, &x.mark);
            x.fields.line(part, found)
        }
        Err(refusal) => {
            let (fault, at) = refusal.into();
            PartLine::Fault { part, fault, at }
        }
    }
}
