// What a line of a script says.
#![tactic(auto)]

mod command;
mod hex;
mod keys;
mod number;
mod words;

pub use card::Part;
pub use command::{Command, Grant, Kind};
pub use hex::bytes_of;
pub use keys::keys_of;
pub use seal::Key;
