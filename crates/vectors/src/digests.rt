// SHA-256. The messages of `examples` and `a_million` and their digests are the examples that NIST gives for FIPS 180-4, and Python's hashlib
// gives the same; the digests of LENGTHS are from hashlib.
use crate::rows::{Row, every, hex};
use sha256::digest;
use std::alloc::{AllocError, Global};
use std::iter::successors;
use std::process::Abort;
use std::test::*;

// Whether a message has this digest.
fn hashed(rt: &(impl Abort + AllocGlobal), message: &[u8], expected: &str) -> Result<(), Fail> {
    let expected = hex(rt.alloc(), expected)?;
    assert_eq!(rt; digest(message).as_slice(), expected.as_slice());
    Ok(())
}

// No byte, and messages of one and of two blocks.
#[test]
fn examples(rt: HostRuntime) -> Result<(), Fail> {
    hashed(
        &rt,
        b"",
        "e3b0c44298fc1c149afbf4c8996fb92427ae41e4649b934ca495991b7852b855",
    )?;
    hashed(
        &rt,
        b"abc",
        "ba7816bf8f01cfea414140de5dae2223b00361a396177a9cb410ff61f20015ad",
    )?;
    hashed(
        &rt,
        b"abcdbcdecdefdefgefghfghighijhijkijkljklmklmnlmnomnopnopq",
        "248d6a61d20638b8e5c026930c3e6039a33ce45964ff2167f6ecedd419db06c1",
    )?;
    hashed(
        &rt,
        b"abcdefghbcdefghicdefghijdefghijkefghijklfghijklmghijklmnhijklmnoijklmnopjklmnopqklmnopqrlmnopqrsmnopqrstnopqrstu",
        "cf5b16a778af8380036ce59e7b0492370b249b11e8f07a51afac45037afee9d1",
    )
}

// One million times the letter a.
#[test]
fn a_million(rt: HostRuntime) -> Result<(), Fail> {
    let message = vec![in rt.alloc(); b'a'; 1000000]?;
    hashed(
        &rt,
        message.as_slice(),
        "cdc76e5c9914fb9281a1c7e284d73e67f1809a48a497200e046d39ccc7112cd0",
    )
}

// Lengths about the ends of blocks, each with the digest of so many bytes of the pattern.
const LENGTHS: &str = "\
55: 576a1bf8d4478657e6dc4af9398544765c2a92cde28478b019235cfed315fc09
56: 9b20501dfd1d99161c257950f3444f3e49230c351c5c8e0943ef369f85f5205d
63: 30b345906b493f06f69444b6521113511c242f30e29840462950035043682f1e
64: d8bc63b4fc1156e5e7d95a418b9bf54cd3174bedbc2db40f74895349b229b3c0
65: 1ee23b0fbcaecc1aff4a9e8f1645f35ab2c8e13609cd73b68df8b5e3f63ce073
119: 7a6589821178918ca8d9edaba5abfc1e9b2669564f4469b66885379c1530b2c8
120: 655250427d56b1b0eeb8497d21428704273458a01772d6881b65c0abac0f8a98
128: 54c9eb041badfd7064645067b107661fed6113197ce2dd066ba69618abd3732f
";

// So many of the bytes 0, 7, 14 and so on, modulo 256.
fn pattern(alloc: Global, len: usize) -> Result<Vec<u8>, AllocError> {
    successors(Some(0u8), |byte| Some(byte.wrapping_add(7)))
        .take(len)
        .collect(alloc)
}

// Whether so many bytes of the pattern have this digest.
fn part(rt: &(impl Abort + AllocGlobal), text: &str) -> Result<(), Fail> {
    let row = Row::read(rt.alloc(), text)?;
    let [len]: [u32; 1] = row.numbers.as_slice().try_into()?;
    let message = pattern(rt.alloc(), len as usize)?;
    assert_eq!(rt; digest(&message).as_slice(), row.bytes.as_slice(), "{text}");
    Ok(())
}

#[test]
fn lengths(rt: HostRuntime) -> Result<(), Fail> {
    every(&rt, LENGTHS, 8, |text| part(&rt, text))
}
