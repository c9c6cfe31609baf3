// What a part says, read as one kind of certificate.
ghost use Rattle.std.specs.Prelude.{◌≡◌};
ghost use Rattle.account.specs.declared.lines.PartLine.{PartLine as Line};
ghost use Rattle.account.specs.declared.verdict.Verdict.{Verdict as Found};
ghost use Rattle.card.specs.declared.part.Part.{Part as Place};

use account::{PartLine, Verdict};
use card::Part;
use certificate::Certificate;

pub(crate) mod calls;
pub(crate) mod kinds;

// A kind of certificate that an account has a line for.
pub(crate) trait Told: Certificate {
    // its line, for the part that it stands in and what its mark was found to be
    ghost line_of: { Place → Self → Found → Line };

    fn line(self, part: Part, verdict: Verdict) -> PartLine
        ensures { result ≡ line_of part self verdict };
}
