// A whole script.
ghost use Rattle.std.specs.Prelude.{◌≡◌, position, IfOk};
ghost use Rattle.std.specs.List.{before_first, after_first};
ghost use Rattle.script.specs.Replays.{is_newline, replayed};

use crate::session::Session;
use std::alloc::{AllocError, Global};

// Where the first newline stands: one call of the library, which a name gives its contract.
fn newline(text: &[u8]) -> Option<usize>
    ensures { result ≡ position is_newline text.now }
{
    text.iter().position(|byte| *byte == b'\n')
}

// The first line, without its newline, and what stands behind that.
fn first_line(text: &[u8]) -> (&[u8], &[u8])
    ensures line { result.0.now ≡ before_first is_newline text.now }
    ensures rest { result.1.now ≡ after_first is_newline text.now }
{
    match newline(text) {
        Some(end) => (&text[..end], &text[end + 1..]),
        None => (text, &[]),
    }
}

// What a script prints, line after line.
pub fn replay_all(heap: Global, text: &[u8]) -> Result<Vec<u8>, AllocError>
    ensures { IfOk result (λ out. out.items ≡ replayed text.now) }
{
    let mut session = Session::new(heap);
    let mut out = Vec::new(heap);
    let mut rest = text;
    let mut n = 0;
    // By what is left: `split` has one piece more than there are lines, and each piece of `split_inclusive` has its newline still on it.
    while !rest.is_empty() {
        let (line, after) = first_line(rest);
        n += 1;
        session.line(n, line, &mut out)?;
        rest = after;
    }
    Ok(out)
}
