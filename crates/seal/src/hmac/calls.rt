// Making and checking marks with keys.
ghost use Rattle.std.specs.Prelude.{◌≡◌, IfOk, Some, Ok};
ghost use Rattle.seal.specs.Declines.{making_code};
ghost use Rattle.seal.specs.Hmac.{hmac_keys, is_under, keyed_by, own_mark};
ghost use Rattle.seal.specs.Keys.{keys_code, first_key};
ghost use Rattle.seal.specs.Seals.{Made, Makes};

use crate::decline::{MakingDecline, SealDecline};
use crate::hmac::HmacSeal;
use crate::key::Key;
use crate::key::calls::{check_keys, key_named};
use crate::seal::Seal;
use sha256::mark;

// Whether a mark is the message's HMAC under a key, if there is one.
fn is_under(key: Option<[u8; 32]>, message: &[u8], found: &[u8; 32]) -> bool
    ensures { result ≡ is_under key message.now found.now }
{
    // A `match`: over `is_some_and` the proof stays open.
    match key {
        Some(key) => *found == mark(&key, message),
        None => false,
    }
}

impl HmacSeal {
    // The first key is the seal's own.
    pub fn new(keys: Vec<Key>) -> Result<HmacSeal, MakingDecline>
        ensures answer { making_code result ≡ Some (keys_code keys.items) }
        ensures value { IfOk result (λ s. hmac_keys s ≡ keys.items) }
    {
        check_keys(keys.as_slice())?;
        Ok(HmacSeal { keys })
    }

    // The seal's own key.
    fn own(&self) -> Key
        ensures { result ≡ first_key (hmac_keys self.now) }
    {
        self.keys[0]
    }

    // The mark of a message under the seal's own key.
    fn own_mark(&self, message: &[u8]) -> [u8; 32]
        ensures value { result ≡ own_mark (hmac_keys self.now) message.now }
        ensures made { Made (keyed_by (hmac_keys self.now)) message.now result (keyed_by (hmac_keys self.now)) }
    {
        mark(&self.own().key, message)
    }
}

impl Seal for HmacSeal {
    ghost meaning = { λ s. keyed_by (hmac_keys s) };

    fn name(&self) -> u32 {
        self.own().name
    }

    fn check(&self, issuer: u32, message: &[u8], mark: &[u8; 32]) -> bool {
        is_under(key_named(self.keys.as_slice(), issuer), message, mark)
    }

    // The mark is the message's HMAC under the own key, and the seal stays as it was.
    fn make(&mut self, message: &[u8]) -> Result<[u8; 32], SealDecline>
        ensures makes { Makes (keyed_by (hmac_keys self.old)) message.now result (keyed_by (hmac_keys self.new)) }
        ensures settled { (result ≡ Ok (own_mark (hmac_keys self.old) message.now)) × (self.new ≡ self.old) }
    {
        Ok(self.own_mark(message))
    }
}
