// Looking up keys, and judging them.
ghost use Rattle.std.specs.Prelude.{◌≡◌, Some};
ghost use Rattle.seal.specs.Declines.{making_code};
ghost use Rattle.seal.specs.Keys.{key_named, distinct, keys_code};

use crate::decline::MakingDecline;
use crate::key::Key;

// The most keys that a seal takes.
const MOST_KEYS: usize = 16;

// The first key of this name.
pub fn key_named(keys: &[Key], name: u32) -> Option<[u8; 32]>
    ensures { result ≡ key_named keys.now name }
{
    let key = keys.iter().find(|key| key.name == name)?;
    Some(key.key)
}

// Whether no name comes twice.
fn are_distinct(keys: &[Key]) -> bool
    ensures { result ≡ distinct keys.now }
{
    let mut rest = keys;
    while let [first, others @ ..] = rest {
        if key_named(others, first.name).is_some() {
            return false;
        }
        rest = others;
    }
    true
}

// Whether keys make a seal: 1 to 16 of them, no name twice. A decline is promised by its number, here and in the makings of seals.
pub fn check_keys(keys: &[Key]) -> Result<(), MakingDecline>
    ensures { making_code result ≡ Some (keys_code keys.now) }
{
    if keys.is_empty() || keys.len() > MOST_KEYS {
        return Err(MakingDecline::Count);
    }
    if !are_distinct(keys) {
        return Err(MakingDecline::NameTwice);
    }
    Ok(())
}
