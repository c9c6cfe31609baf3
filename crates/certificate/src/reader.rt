// A reader: what is left of the input, and its offset.
use std::marker::Model;

pub(crate) mod calls;

#[derive(Drop)]
pub(crate) struct Reader<'a> {
    left: &'a [u8],
    at: usize,
}

impl<'a> Model for Reader<'a> {
    ghost use Rattle.std.specs.Prelude.{ℕ, ◌+◌, ◌^◌, ◌<◌, List, length};

    ghost Value = { List ℕ × ℕ };

    ghost view = { λ r. (r.left.now, r.at) };

    ghost invariant = { λ r. r.at + length r.left.now < 2 ^ 63 };
}
