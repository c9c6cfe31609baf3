// A script, carried out line by line.
#![tactic(auto)]

mod cards;
mod issue;
mod marks;
mod replay;
mod session;
mod stop;
mod told;

pub use replay::replay_all;
