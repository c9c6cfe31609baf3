// At most N bytes, held in place.
use std::marker::Model;

pub mod calls;

// The first `len` of the cells; the others are zeros. (The kit's `ArrayVec` cannot be copied, as the record of a card can.)
#[derive(Clone, Copy)]
pub struct FixedBytes<const N: usize> {
    cells: [u8; N],
    len: usize,
}

impl<const N: usize> Model for FixedBytes<N> {
    ghost use Rattle.std.specs.Prelude.{◌≡◌, ℕ, ◌-◌, ◌≤◌, ◌++◌, List, length, take, drop, replicate};
    ghost use Rattle.fixed.specs.Cells.{cells_back, len_back};

    ghost Value = { List ℕ };

    ghost view = { λ a. take a.len a.cells };

    ghost invariant = { λ a. (a.len ≤ N) × (length a.cells ≡ N) × (drop a.len a.cells ≡ replicate (N - a.len) 0) };

    ghost inverse = { λ xs. record { cells = xs ++ replicate (N - length xs) 0; len = length xs } };

    ghost inverse_ok = { λ a h. Prim.rw (cells_back N a.len a.cells h.0 h.1 h.2, len_back N a.len a.cells h.0 h.1) };
}

// More bytes than there is room for.
#[derive(Clone, Copy, PartialEq, Eq, Debug)]
pub struct TooLong;
