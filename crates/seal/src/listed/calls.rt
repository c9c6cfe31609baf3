// Making and checking marks by a list.
ghost use Rattle.std.specs.Prelude.{vec_capacity};
ghost use Rattle.seal.specs.Listed.{ListedMark, NewListed, listed_pairs, listed_by};
ghost use Rattle.seal.specs.Seals.{Makes};

use crate::decline::{MakingDecline, SealDecline};
use crate::listed::ListedSeal;
use crate::pair::Pair;
use crate::seal::Seal;
use sha256::digest;

// The most pairs that a list takes.
const MOST_PAIRS: usize = 64;

impl ListedSeal {
    // Memory for all the pairs that the list may take is reserved here.
    pub fn new(name: u32, mut pairs: Vec<Pair>) -> Result<ListedSeal, MakingDecline>
        ensures { NewListed name pairs.items (vec_capacity pairs) result }
    {
        let n = pairs.len();
        if n > MOST_PAIRS {
            return Err(MakingDecline::Count);
        }
        pairs.reserve(MOST_PAIRS - n)?;
        Ok(ListedSeal { name, pairs })
    }
}

impl Seal for ListedSeal {
    ghost meaning = { λ s. listed_by s.name (listed_pairs s) };

    fn name(&self) -> u32 {
        self.name
    }

    fn check(&self, issuer: u32, message: &[u8], mark: &[u8; 32]) -> bool {
        let pair = Pair {
            issuer,
            digest: *mark,
        };
        *mark == digest(message) && self.pairs.contains(&pair)
    }

    // The mark is the message's digest, and the pair of it and the own name stands at the end of the list.
    fn make(&mut self, message: &[u8]) -> Result<[u8; 32], SealDecline>
        ensures makes { Makes (listed_by self.old.name (listed_pairs self.old)) message.now result (listed_by self.new.name (listed_pairs self.new)) }
        ensures settled { ListedMark self.old message.now result self.new }
    {
        if self.pairs.len() >= MOST_PAIRS {
            return Err(SealDecline::NoneLeft);
        }
        Ok(self.add(message))
    }
}
