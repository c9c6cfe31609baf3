// A seal of keys.
ghost use Rattle.std.specs.Prelude.{◌≡◌};
ghost use Rattle.seal.specs.Keys.{keys_code};

use crate::key::Key;

pub mod calls;

// HMAC-SHA-256 under 1 to 16 keys of different names, the first its own. It is seen with its field and by no model: `self.new ≡ self.old`
// then says that the vector stays as it is, its memory included.
#[derive(Drop)]
pub struct HmacSeal {
    keys: Vec<Key>,
    ghost fit: { keys_code keys.items ≡ 0 },
}
