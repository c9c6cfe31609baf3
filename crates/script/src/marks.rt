// The marks that the keys of a script make, and what they make of a mark.
ghost use Rattle.std.specs.Prelude.{◌≡◌};
ghost use Rattle.script.specs.Marks.{mark_by, verdict_of};

use account::Verdict;
use seal::{Key, check_keys, key_named};
use sha256::mark;

// The mark of a message under the key of its issuer; zeros where there is none. The keys are a slice and no type of their own, since they may
// make no seal.
pub(crate) fn mark_by(keys: &[Key], issuer: u32, message: &[u8]) -> [u8; 32]
    ensures { result ≡ mark_by keys.now issuer message.now }
{
    match key_named(keys, issuer) {
        Some(key) => mark(&key, message),
        None => [0; 32],
    }
}

// What the keys make of a mark.
pub(crate) fn verdict(keys: &[Key], issuer: u32, message: &[u8], found: &[u8; 32]) -> Verdict
    ensures { result ≡ verdict_of keys.now issuer message.now found.now }
{
    if check_keys(keys).is_err() {
        return Verdict::Unchecked;
    }
    match key_named(keys, issuer) {
        Some(key) if mark(&key, message) == *found => Verdict::Good,
        _ => Verdict::Bad,
    }
}
