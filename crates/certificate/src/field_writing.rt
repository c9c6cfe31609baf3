// Writing the groups of fields. Each call says what it appends and how long that is at most; the bound is another for each, so no type has it.
ghost use Rattle.std.specs.Prelude.{◌≡◌, ◌+◌, ◌≤◌, ◌++◌, length};
ghost use Rattle.certificate.specs.Fields.{identity_bytes, header_bytes, base_bytes};

use crate::fields::{Base, Header, Identity};
use crate::writing::number;
use fixed::FixedBytes;

#[tactic(auto, using(std::proofs::lemmas::List::append_assoc), unfolding(crate::specs::Fields::identity_bytes))]
fn identity(out: &mut FixedBytes<128>, x: Identity)
    requires { length out.old + 14 ≤ 128 }
    ensures bytes { out.new ≡ out.old ++ identity_bytes x }
    ensures len { length out.new ≤ length out.old + 14 }
{
    number(out, x.issuer);
    number(out, x.serial);
}

#[tactic(auto, using(std::proofs::lemmas::List::append_assoc), unfolding(crate::specs::Fields::header_bytes))]
fn header(out: &mut FixedBytes<128>, x: Header)
    requires { length out.old + 28 ≤ 128 }
    ensures bytes { out.new ≡ out.old ++ header_bytes x }
    ensures len { length out.new ≤ length out.old + 28 }
{
    identity(out, x.identity);
    number(out, x.first);
    number(out, x.last);
}

#[tactic(auto, using(std::proofs::lemmas::List::append_assoc), unfolding(crate::specs::Fields::base_bytes))]
fn base(out: &mut FixedBytes<128>, x: Base)
    requires { length out.old + 21 ≤ 128 }
    ensures bytes { out.new ≡ out.old ++ base_bytes x }
    ensures len { length out.new ≤ length out.old + 21 }
{
    identity(out, x.identity);
    number(out, x.card);
}

// A body of the header alone, so far.
pub(crate) fn headed(x: Header) -> FixedBytes<128>
    ensures bytes { result ≡ header_bytes x }
    ensures len { length result ≤ 28 }
{
    let mut out = FixedBytes::new();
    header(&mut out, x);
    out
}

// A body of the header and the base, so far.
pub(crate) fn based(x: Header, y: Base) -> FixedBytes<128>
    ensures bytes { result ≡ header_bytes x ++ base_bytes y }
    ensures len { length result ≤ 49 }
{
    let mut out = headed(x);
    base(&mut out, y);
    out
}
