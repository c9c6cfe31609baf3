// How the line of a part prints.
ghost use Rattle.std.specs.Prelude.{Some};
ghost use Rattle.account.specs.Texts.{part_text};

use crate::lines::PartLine;
use crate::pieces::{Basis, Heading, Template, Title};
use card::Part;
use std::fmt;

impl fmt::Display for PartLine {
    ghost output = { λ line. Some (part_text line) };

    #[tactic(auto, unfolding(crate::specs::Texts::id_line, crate::specs::Texts::ianda_line, crate::specs::Texts::grant_line, crate::specs::Texts::fault_line, crate::specs::Texts::no_kind_line))]
    fn fmt<W: fmt::Write>(&self, f: &mut fmt::Formatter<W>) -> fmt::Result {
        match *self {
            PartLine::Id(id, verdict) => writeln!(
                f,
                "{}{} subject {} mark {verdict}",
                Title(Part::Id),
                Heading(id.header),
                id.subject
            ),
            PartLine::Ianda(ianda, verdict) => writeln!(
                f,
                "{}{}{} template {} mark {verdict}",
                Title(Part::Ianda),
                Heading(ianda.header),
                Basis(ianda.base),
                Template(ianda.template)
            ),
            PartLine::Grant {
                part,
                header,
                base,
                role,
                clearance,
                verdict,
            } => writeln!(
                f,
                "{}{}{} role {role} clearance {clearance} mark {verdict}",
                Title(part),
                Heading(header),
                Basis(base)
            ),
            PartLine::Fault { part, fault, at } => {
                writeln!(f, "{} fault {fault} at {at}", Title(part))
            }
            PartLine::NoKind(part) => writeln!(f, "{} no clearance kind", Title(part)),
        }
    }
}
