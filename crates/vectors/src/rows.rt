// The tables. A table is a text with a row on each line: decimal numbers, and mostly a colon and bytes in hex after them.
use std::alloc::Global;
use std::process::Abort;
use std::test::*;

// Whether a table has so many rows, and each is right.
pub(crate) fn every<F: Fn(&str) -> Result<(), Fail>>(
    rt: &impl Abort,
    table: &str,
    count: usize,
    is_right: F,
) -> Result<(), Fail>
    requires { F.IsAlwaysCallable is_right }
{
    assert_eq!(rt; table.lines().count(), count);
    for text in table.lines() {
        is_right(text)?;
    }
    Ok(())
}

// A row: the numbers before its colon, and the bytes behind it.
#[derive(Drop)]
pub(crate) struct Row {
    pub numbers: Vec<u32>,
    pub bytes: Vec<u8>,
}

impl Row {
    pub(crate) fn read(alloc: Global, text: &str) -> Result<Row, Fail> {
        let (before, behind) = text.split_once(':').ok_or(("no colon", text))?;
        let numbers = numbers(alloc, before)?;
        let bytes = hex(alloc, behind)?;
        Ok(Row { numbers, bytes })
    }
}

// The numbers in a text, in decimal digits; whatever is no digit stands between them.
pub(crate) fn numbers(alloc: Global, text: &str) -> Result<Vec<u32>, Fail> {
    text.split(|c: char| !c.is_ascii_digit())
        .filter(|word| !word.is_empty())
        .map(number)
        .try_collect(alloc)
}

// The number of decimal digits.
fn number(word: &str) -> Result<u32, Fail> {
    Ok(word.parse()?)
}

// The 32 bytes for which `*` stands.
const COUNTED: &str = "000102030405060708090a0b0c0d0e0f101112131415161718191a1b1c1d1e1f";

// The bytes of a text of hex digits, two digits to a byte, with spaces between bytes.
pub(crate) fn hex(alloc: Global, text: &str) -> Result<Vec<u8>, Fail> {
    let parts: Vec<&str> = text.split('*').collect(alloc)?;
    let text = parts.join(alloc, COUNTED)?;
    text.split_whitespace()
        .flat_map(|word| word.as_bytes().chunks(2))
        .map(byte)
        .try_collect(alloc)
}

// The byte of two hex digits.
fn byte(digits: &[u8]) -> Result<u8, Fail> {
    let digits: [u8; 2] = digits.try_into()?;
    Ok(u8::from_str_radix(str::from_utf8(&digits)?, 16)?)
}
