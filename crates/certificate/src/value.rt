// The number that the contents of an INTEGER stand for.
ghost use Rattle.std.specs.Prelude.{◌≡◌};
ghost use Rattle.certificate.specs.Der.{shortest, value_of};

#[tactic(auto, using(crate::proofs::Contents::shortest_none, crate::proofs::Contents::shortest_one, crate::proofs::Contents::shortest_more))]
fn is_shortest(contents: &[u8]) -> bool
    ensures { result ≡ shortest contents.now }
{
    match contents {
        [] => false,
        [first] => *first < 128,
        [first, second, ..] => *first < 128 && (*first > 0 || *second >= 128),
    }
}

// The number, if it fits 32 bits.
pub(crate) fn value(contents: &[u8]) -> Option<u32>
    ensures { result ≡ value_of 4294967295 contents.now }
{
    // More than five bytes are no shortest contents of such a number, and none of them need be read.
    if contents.len() > 5 {
        return None;
    }
    if !is_shortest(contents) {
        return None;
    }
    let mut number: u32 = 0;
    for byte in contents {
        number = number.checked_mul(256)? + u32::from(*byte);
    }
    Some(number)
}
