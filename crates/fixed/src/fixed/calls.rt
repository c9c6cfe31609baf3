// Filling and reading fixed bytes.
ghost use Rattle.std.specs.Prelude.{◌≡◌, ◌≤◌, [], length, is_ok};
ghost use Rattle.fixed.specs.Room.{room, extended, taken};

use super::{FixedBytes, TooLong};

impl<const N: usize> FixedBytes<N> {
    // No bytes.
    pub fn new() -> Self
        ensures { result ≡ [] }
    {
        FixedBytes {
            cells: [0; N],
            len: 0,
        }
    }

    // The bytes.
    pub fn as_slice(&self) -> &[u8]
        ensures value { result.now ≡ self.now }
        ensures within { length result.now ≤ N }
    {
        &self.cells[..self.len]
    }

    // Puts bytes behind those that are there, if there is room for all of them.
    #[tactic(auto, using(crate::proofs::Ends::ends))]
    pub fn extend(&mut self, bytes: &[u8]) -> Result<(), TooLong>
        ensures answer { is_ok result ≡ room N self.old bytes.now }
        ensures after { self.new ≡ extended N self.old bytes.now }
    {
        let len = self.len;
        if bytes.len() > N - len {
            return Err(TooLong);
        }
        let end = len + bytes.len();
        let cells = &mut self.cells[..];
        cells[len..end].copy_from_slice(bytes);
        self.len = end;
        Ok(())
    }
}

impl<'a, const N: usize> TryFrom<&'a [u8]> for FixedBytes<N> {
    type Error = TooLong;

    ghost try_from_gives = { λ bytes answer. answer ≡ taken N bytes.now };

    fn try_from(bytes: &'a [u8]) -> Result<Self, TooLong> {
        let mut taken = FixedBytes::new();
        taken.extend(bytes)?;
        Ok(taken)
    }
}
