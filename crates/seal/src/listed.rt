// A seal of listed digests.
ghost use Rattle.std.specs.Prelude.{◌≤◌, vec_len, vec_capacity};

use crate::pair::Pair;

mod adding;
pub mod calls;

// A list of at most 64 pairs, with memory for all of them. It is seen with its fields and by no model: `self.new ≡ self.old` then says
// that the vector stays as it is, its memory included.
#[derive(Drop)]
pub struct ListedSeal {
    name: u32,
    pairs: Vec<Pair>,
    ghost few: { vec_len pairs ≤ 64 },
    ghost reserved: { 64 ≤ vec_capacity pairs },
}
