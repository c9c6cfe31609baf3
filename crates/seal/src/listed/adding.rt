// One more pair in the list.
ghost use Rattle.std.specs.Prelude.{◌<◌, vec_len};
ghost use Rattle.seal.specs.Listed.{Adds, listed_pairs, listed_by};
ghost use Rattle.seal.specs.Seals.{Made};

use crate::listed::ListedSeal;
use crate::pair::Pair;
use sha256::digest;

impl ListedSeal {
    // Lists the digest of a message under the own name.
    pub(super) fn add(&mut self, message: &[u8]) -> [u8; 32]
        requires { vec_len self.old.pairs < 64 }
        ensures made { Made (listed_by self.old.name (listed_pairs self.old)) message.now result (listed_by self.new.name (listed_pairs self.new)) }
        ensures settled { Adds self.old message.now result self.new }
    {
        let mark = digest(message);
        let issuer = self.name;
        self.pairs.push_reserved(Pair {
            issuer,
            digest: mark,
        });
        mark
    }
}
