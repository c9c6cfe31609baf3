// What differs from kind to kind: the fields that the body holds.
ghost use Rattle.std.specs.Prelude.{Result};
ghost use Rattle.certificate.specs.declared.fault.Refusal.{Refusal};
ghost use Rattle.certificate.specs.Placed.{State, Reads};

use crate::fault::Refusal as Refused;
use crate::reader::Reader;

pub mod kinds;
pub mod read;

pub(crate) trait Body: Copy {
    // how the fields are read, at a place of the input
    ghost fields_at: { State → Result (Self × State) Refusal };

    fn fields(r: &mut Reader) -> Result<Self, Refused>
        ensures { Reads fields_at r.old r.new result };
}
