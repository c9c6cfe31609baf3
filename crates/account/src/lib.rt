// The lines of an account of cards.
#![tactic(auto)]

mod lines;
mod pieces;
mod reason;
mod show;
mod verdict;

pub use lines::PartLine;
pub use reason::Reason;
pub use show::{card_line, part_line, refused_line};
pub use verdict::Verdict;
