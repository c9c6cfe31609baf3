// The bodies of the kinds.
ghost use Rattle.certificate.specs.Fields.{id_at, ianda_at, numbers_at};

use crate::body::Body;
use crate::fault::Refusal;
use crate::field_reading::{base, header, placed};
use crate::fields::{Ianda, Id};
use crate::numbers::Numbers;
use crate::reader::Reader;

impl Body for Id {
    ghost fields_at = { id_at };

    #[tactic(auto, unfolding(crate::specs::Placed::followed, crate::specs::Fields::id_at))]
    fn fields(r: &mut Reader) -> Result<Self, Refusal> {
        let header = header(r)?;
        let subject = r.number()?;
        Ok(Id { header, subject })
    }
}

impl Body for Ianda {
    ghost fields_at = { ianda_at };

    #[tactic(auto, unfolding(crate::specs::Placed::followed, crate::specs::Fields::ianda_at))]
    fn fields(r: &mut Reader) -> Result<Self, Refusal> {
        let header = header(r)?;
        let base = base(r)?;
        let template = r.octets()?;
        Ok(Ianda {
            header,
            base,
            template,
        })
    }
}

impl Body for Numbers {
    ghost fields_at = { numbers_at };

    #[tactic(auto, unfolding(crate::specs::Placed::followed, crate::specs::Fields::numbers_at))]
    fn fields(r: &mut Reader) -> Result<Self, Refusal> {
        let header = header(r)?;
        let base = base(r)?;
        let role = placed(r)?;
        let clearance = placed(r)?;
        Ok(Numbers {
            header,
            base,
            role,
            clearance,
        })
    }
}
