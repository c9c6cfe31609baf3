// The roles of those who hold cards.
#![tactic(auto)]

mod role;

pub use role::{NoRole, Role};
