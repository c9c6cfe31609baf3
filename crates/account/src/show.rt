// The lines of an account, each put behind what `out` has gathered so far. Where memory runs out, `out` may have a part of it.
// Each call promises what it appends: the text is another for each, so no type has it.
ghost use Rattle.std.specs.Prelude.{◌≡◌, ◌++◌, OnOk};
ghost use Rattle.account.specs.Texts.{part_text, card_line, refused_line};

use crate::lines::PartLine;
use crate::reason::Reason;
use std::alloc::AllocError;
use std::io::Write;

// The line of a part. This call and the last are one `write!` or `writeln!` each, over other things.
pub fn part_line(out: &mut Vec<u8>, line: PartLine) -> Result<(), AllocError>
    ensures { OnOk result (out.new.items ≡ out.old.items ++ part_text line) }
{
    write!(out, "{line}").map_err(|_| AllocError)
}

// The line that begins the account of a card: its label, its number and its state.
#[tactic(auto, unfolding(crate::specs::Texts::card_line))]
pub fn card_line(
    out: &mut Vec<u8>,
    label: &[u8],
    card: u32,
    writable: bool,
) -> Result<(), AllocError>
    ensures { OnOk result (out.new.items ≡ out.old.items ++ card_line label.now card writable) }
{
    // A label's bytes need not be text.
    out.extend_from_slice(b"card ")?;
    out.extend_from_slice(label)?;
    let state = if writable { "writable" } else { "fixed" };
    writeln!(out, " {card} {state}").map_err(|_| AllocError)
}

// The line that says why the script's `n`-th line was not carried out.
#[tactic(auto, unfolding(crate::specs::Texts::refused_line))]
pub fn refused_line(out: &mut Vec<u8>, n: usize, why: Reason) -> Result<(), AllocError>
    ensures { OnOk result (out.new.items ≡ out.old.items ++ refused_line n why) }
{
    writeln!(out, "line {n}: {why}").map_err(|_| AllocError)
}
