// What the holder of a privilege or an authorisation certificate may do, and the number of each role.

pub mod calls;

#[derive(Clone, Copy, Debug, PartialEq, Eq)]
pub enum Role {
    UserOnly = 0,
    Guard = 1,
    SecurityOfficer = 2,
    AuditManager = 3,
}

// A number that no role has.
#[derive(Clone, Copy, Debug, PartialEq, Eq)]
pub struct NoRole;
