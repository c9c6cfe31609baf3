// The lines of the kinds.
ghost use Rattle.account.specs.declared.lines.PartLine.TheVariants as line;
ghost use Rattle.role.specs.Roles.{role_number};

use crate::told::Told;
use account::{PartLine, Verdict};
use card::Part;
use certificate::{Ianda, Id, Privilege};
use clearance::Clearance;

impl Told for Id {
    ghost line_of = { λ _ x v. line.Id x v };

    fn line(self, _part: Part, verdict: Verdict) -> PartLine {
        PartLine::Id(self, verdict)
    }
}

impl Told for Ianda {
    ghost line_of = { λ _ x v. line.Ianda x v };

    fn line(self, _part: Part, verdict: Verdict) -> PartLine {
        PartLine::Ianda(self, verdict)
    }
}

impl<C: Clearance> Told for Privilege<C> {
    ghost line_of = { λ p x v. line.Grant p x.header x.base (role_number x.role) (C.Clearance.number_of x.clearance) v };

    fn line(self, part: Part, verdict: Verdict) -> PartLine {
        PartLine::Grant {
            part,
            header: self.header,
            base: self.base,
            role: self.role.into(),
            clearance: self.clearance.number(),
            verdict,
        }
    }
}
