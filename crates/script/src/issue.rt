// Certificates that a script writes, sealed under the keys of the script.
ghost use Rattle.std.specs.Prelude.{◌≡◌};
ghost use Rattle.script.specs.Issues.{sealed_body, judged};

use crate::marks::mark_by;
use certificate::{Certificate, FixedBytes, Privilege};
use clearance::Clearance;
use command::Grant;
use role::Role;
use seal::Key;

// The certificate of these fields, with the mark of its issuer.
pub(crate) fn issued<T: Certificate>(keys: &[Key], fields: T) -> FixedBytes<128>
    ensures { result ≡ sealed_body keys.now (T.Certificate.header_of fields).identity.issuer (T.Certificate.field_bytes fields) }
{
    let issuer = fields.header().identity.issuer;
    let mark = mark_by(keys, issuer, fields.message().as_slice());
    fields.write(mark)
}

// The fields of a privilege or an authorisation certificate, where role and clearance have a meaning. (`judge` of `certificate` says where a
// number stands that has none.)
pub(crate) fn judged<C: Clearance>(grant: Grant) -> Option<Privilege<C>>
    ensures { result ≡ judged C.Clearance.of_number grant }
{
    let role = Role::try_from(grant.role).ok()?;
    let clearance = C::of(grant.clearance)?;
    Some(Privilege {
        header: grant.header,
        base: grant.base,
        role,
        clearance,
    })
}
