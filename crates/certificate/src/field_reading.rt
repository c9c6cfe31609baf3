// Reading the groups of fields.
// The crate `command` reads these groups from words: one trait over both sources, with its refusal and two sets of definitions, is longer.
ghost use Rattle.certificate.specs.Fields.{identity_at, header_at, base_at, placed_at};
ghost use Rattle.certificate.specs.Placed.{Reads};

use crate::fault::Refusal;
use crate::fields::{Base, Header, Identity};
use crate::numbers::Placed;
use crate::reader::Reader;

#[tactic(auto, unfolding(crate::specs::Placed::followed, crate::specs::Fields::identity_at))]
fn identity(r: &mut Reader) -> Result<Identity, Refusal>
    ensures { Reads identity_at r.old r.new result }
{
    let issuer = r.number()?;
    let serial = r.number()?;
    Ok(Identity { issuer, serial })
}

#[tactic(auto, unfolding(crate::specs::Placed::followed, crate::specs::Fields::header_at))]
pub(crate) fn header(r: &mut Reader) -> Result<Header, Refusal>
    ensures { Reads header_at r.old r.new result }
{
    let identity = identity(r)?;
    let first = r.number()?;
    let last = r.number()?;
    Ok(Header {
        identity,
        first,
        last,
    })
}

#[tactic(auto, unfolding(crate::specs::Placed::followed, crate::specs::Fields::base_at))]
pub(crate) fn base(r: &mut Reader) -> Result<Base, Refusal>
    ensures { Reads base_at r.old r.new result }
{
    let identity = identity(r)?;
    let card = r.number()?;
    Ok(Base { identity, card })
}

// A number, with the offset of its element.
#[tactic(auto, unfolding(crate::specs::Placed::followed, crate::specs::Fields::placed_at))]
pub(crate) fn placed(r: &mut Reader) -> Result<Placed, Refusal>
    ensures { Reads placed_at r.old r.new result }
{
    let at = r.at();
    let number = r.number()?;
    Ok(Placed { number, at })
}
