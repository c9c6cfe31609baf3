// Certificates: reading and writing the four kinds, in X.690 DER with one encoding each.
#![tactic(auto)]

mod body;
mod certificate;
mod element;
mod envelope;
mod fault;
mod field_reading;
mod field_writing;
mod fields;
mod finish;
mod judge;
mod laws;
mod numbers;
mod reader;
mod tag;
mod value;
mod writing;

pub use certificate::Certificate;
pub use fault::{Fault, Refusal};
pub use fields::{Base, Header, Ianda, Id, Identity, Privilege, Reading};
pub use fixed::FixedBytes;
pub use laws::certificates_stand;
