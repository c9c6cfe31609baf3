// The body of a privilege or an authorisation certificate before role and clearance are judged.
use crate::fields::{Base, Header};

// A number, and the offset of its element.
#[derive(Clone, Copy)]
pub(crate) struct Placed {
    pub number: u32,
    pub at: usize,
}

// As a `Privilege` whose role and clearance are not judged yet; one struct over both would name what they are at every use, and hide it here.
#[derive(Clone, Copy)]
pub(crate) struct Numbers {
    pub header: Header,
    pub base: Base,
    pub role: Placed,
    pub clearance: Placed,
}
