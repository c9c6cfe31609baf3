// HMAC-SHA-256. The keys, the data and the marks are test cases 1 to 7 of RFC 4231; of the mark of case 5 the RFC gives 16 bytes.
use crate::rows::hex;
use sha256::mark;
use std::process::Abort;
use std::test::*;

// Whether the mark begins with these bytes.
fn marked(
    rt: &(impl Abort + AllocGlobal),
    key: &[u8],
    message: &[u8],
    expected: &str,
) -> Result<(), Fail> {
    let expected = hex(rt.alloc(), expected)?;
    let mark = mark(key, message);
    assert_eq!(rt; mark.get(..expected.len()), Some(expected.as_slice()));
    Ok(())
}

#[test]
fn short_keys(rt: HostRuntime) -> Result<(), Fail> {
    marked(
        &rt,
        &[0x0b; 20],
        b"Hi There",
        "b0344c61d8db38535ca8afceaf0bf12b881dc200c9833da726e9376c2e32cff7",
    )?;
    marked(
        &rt,
        b"Jefe",
        b"what do ya want for nothing?",
        "5bdcc146bf60754e6a042426089575c75a003f089d2739839dec58b964ec3843",
    )?;
    marked(
        &rt,
        &[0xaa; 20],
        &[0xdd; 50],
        "773ea91e36800e46854db8ebd09181a72959098b3ef8c122d9635514ced565fe",
    )?;
    let key = hex(
        rt.alloc(),
        "0102030405060708090a0b0c0d0e0f10111213141516171819",
    )?;
    marked(
        &rt,
        &key,
        &[0xcd; 50],
        "82558a389a443c0ea4cc819899f2083a85f0faa3e578f8077a2e3ff46729665b",
    )?;
    marked(
        &rt,
        &[0x0c; 20],
        b"Test With Truncation",
        "a3b6167473100ee06e0c796c2955552b",
    )
}

// Keys of more than a block, which are hashed first.
#[test]
fn long_keys(rt: HostRuntime) -> Result<(), Fail> {
    marked(
        &rt,
        &[0xaa; 131],
        b"Test Using Larger Than Block-Size Key - Hash Key First",
        "60e431591ee0b67f0d8a26aacbf5b77f8e0bc6213728c5140546040f0ee37f54",
    )?;
    marked(
        &rt,
        &[0xaa; 131],
        b"This is a test using a larger than block-size key and a larger than block-size data. The key needs to be hashed before being used by the HMAC algorithm.",
        "9b09ffa71b942fcb27635fbcd5b0e944bfdc63644f0713938a7f51535c3a35e2",
    )
}
