// The words for a reason.
ghost use Rattle.std.specs.Prelude.{Some};
ghost use Rattle.account.specs.Texts.{reason_text};

use crate::reason::Reason;
use std::fmt;

impl fmt::Display for Reason {
    ghost output = { λ why. Some (reason_text why) };

    fn fmt<W: fmt::Write>(&self, f: &mut fmt::Formatter<W>) -> fmt::Result {
        match *self {
            Reason::NotUnderstood => f.write_str("not understood"),
            Reason::NoSuchCard => f.write_str("no such card"),
            Reason::CardNamedBefore => f.write_str("card named before"),
            Reason::NoClearanceKind => f.write_str("no clearance kind"),
            Reason::BadRoleOrClearance => f.write_str("bad role or clearance"),
            Reason::Declined(decline) => write!(f, "declined {}", u32::from(decline)),
        }
    }
}
