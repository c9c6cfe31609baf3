// The fields of the certificates, and what a reading answers.
use role::Role;

pub(crate) mod ianda_calls;
pub(crate) mod id_calls;
pub(crate) mod privilege_calls;

// The pair that names a certificate: who issued it, and its serial number.
#[derive(Clone, Copy, Debug, PartialEq, Eq)]
pub struct Identity {
    pub issuer: u32,
    pub serial: u32,
}

// What every certificate begins with: its identity, and the first and the last time at which it is good.
#[derive(Clone, Copy, Debug, PartialEq, Eq)]
pub struct Header {
    pub identity: Identity,
    pub first: u32,
    pub last: u32,
}

// What a certificate rests on: the ID certificate of that identity, on the card of that number.
#[derive(Clone, Copy, Debug, PartialEq, Eq)]
pub struct Base {
    pub identity: Identity,
    pub card: u32,
}

// An ID certificate: who holds the card.
#[derive(Clone, Copy, Debug, PartialEq, Eq)]
pub struct Id {
    pub header: Header,
    pub subject: u32,
}

// An I&A certificate (identification and authentication): the holder's print, as a template of 256 bits.
#[derive(Clone, Copy, Debug, PartialEq, Eq)]
pub struct Ianda {
    pub header: Header,
    pub base: Base,
    pub template: [u8; 32],
}

// A privilege certificate, or an authorisation certificate, which has the same fields: role and clearance.
#[derive(Clone, Copy, Debug, PartialEq, Eq)]
pub struct Privilege<C> {
    pub header: Header,
    pub base: Base,
    pub role: Role,
    pub clearance: C,
}

// What was read: the fields, the message that is sealed (the whole body, header included) and the mark.
#[derive(Clone, Copy)]
pub struct Reading<'a, T> {
    pub fields: T,
    pub message: &'a [u8],
    pub mark: [u8; 32],
}
