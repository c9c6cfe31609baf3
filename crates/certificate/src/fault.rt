// Why bytes are no certificate, and where.

pub mod calls;

// The faults that a reading can meet, and the number of each.
#[derive(Clone, Copy, Debug, PartialEq, Eq)]
pub enum Fault {
    // An element is missing, or what it announces is not all there.
    CutShort = 40,
    // Another tag than the one that belongs here.
    Tag = 41,
    // A length byte above 7F.
    LengthByte = 42,
    // The contents of an INTEGER are empty, not the shortest, negative or too large.
    Integer = 43,
    // An OCTET STRING of another length than 32.
    Octets = 44,
    // Bytes follow where nothing should.
    LeftOver = 45,
    // A role that is none of the four, or a number that is no clearance of the kind.
    RoleOrClearance = 46,
}

// `at` is the offset of the element's tag, or of the first byte left over, counted from 0 at the start of the certificate.
#[derive(Clone, Copy, Debug, PartialEq, Eq)]
pub struct Refusal {
    pub fault: Fault,
    pub at: usize,
}
