// The functions on words: FIPS 180-4, 4.1.2.
ghost use Rattle.std.specs.Prelude.{◌≡◌, ◌<◌};
ghost use Rattle.sha256.specs.Hash.{Ch, Maj, big_sigma, small_sigma};

pub(crate) fn choose(x: u32, y: u32, z: u32) -> u32
    ensures { result ≡ Ch x y z }
{
    (x & y) ^ (!x & z)
}

pub(crate) fn majority(x: u32, y: u32, z: u32) -> u32
    ensures { result ≡ Maj x y z }
{
    (x & y) ^ (x & z) ^ (y & z)
}

// The rotations by `A`, `B` and `C` bits, combined by exclusive or.
pub(crate) fn big_sigma<const A: u32, const B: u32, const C: u32>(x: u32) -> u32
    requires first { (0 < A) × (A < 32) }
    requires second { (0 < B) × (B < 32) }
    requires third { (0 < C) × (C < 32) }
    ensures { result ≡ big_sigma A B C x }
{
    x.rotate_right(A) ^ x.rotate_right(B) ^ x.rotate_right(C)
}

// The rotations by `A` and `B` bits and the shift by `S` bits, combined by exclusive or.
pub(crate) fn small_sigma<const A: u32, const B: u32, const S: u32>(x: u32) -> u32
    requires first { (0 < A) × (A < 32) }
    requires second { (0 < B) × (B < 32) }
    requires shift { S < 32 }
    ensures { result ≡ small_sigma A B S x }
{
    x.rotate_right(A) ^ x.rotate_right(B) ^ (x >> S)
}
