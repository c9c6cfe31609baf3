// Role and clearance of a body, told last of all.
ghost use Rattle.std.specs.Prelude.{◌≡◌};
ghost use Rattle.certificate.specs.Fields.{judged};

use crate::fault::{Fault, Refusal};
use crate::fields::Privilege;
use crate::numbers::Numbers;
use clearance::Clearance;
use role::Role;

pub(crate) fn judge<C: Clearance>(x: Numbers) -> Result<Privilege<C>, Refusal>
    ensures { result ≡ judged C.Clearance.of_number x }
{
    let fault = Fault::RoleOrClearance;
    let role = Role::try_from(x.role.number).map_err(|_| Refusal {
        fault,
        at: x.role.at,
    })?;
    let clearance = C::of(x.clearance.number).ok_or(Refusal {
        fault,
        at: x.clearance.at,
    })?;
    Ok(Privilege {
        header: x.header,
        base: x.base,
        role,
        clearance,
    })
}
