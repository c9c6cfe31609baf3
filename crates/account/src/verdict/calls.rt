// The words for a mark.
ghost use Rattle.std.specs.Prelude.{Some};
ghost use Rattle.account.specs.Texts.{verdict_text};

use crate::verdict::Verdict;
use std::fmt;

impl fmt::Display for Verdict {
    ghost output = { λ verdict. Some (verdict_text verdict) };

    fn fmt<W: fmt::Write>(&self, f: &mut fmt::Formatter<W>) -> fmt::Result {
        f.write_str(match self {
            Verdict::Good => "good",
            Verdict::Bad => "bad",
            Verdict::Unchecked => "unchecked",
        })
    }
}
