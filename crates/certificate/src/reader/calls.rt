// Reading elements.
ghost use Rattle.std.specs.Prelude.{◌≡◌, ◌+◌, ◌^◌, ◌<◌, length, Ok, Err, IfOk, MatchResult};
ghost use Rattle.certificate.specs.Tags.{tag_byte};
ghost use Rattle.certificate.specs.Der.{element};
ghost use Rattle.certificate.specs.Placed.{Reads, placed, number_at, octets_at, sequence_at, end_at};

use crate::element::element;
use crate::fault::{Fault, Refusal};
use crate::reader::Reader;
use crate::tag::Tag;
use crate::value::value;

impl<'a> Reader<'a> {
    pub(crate) fn new(bytes: &'a [u8]) -> Reader<'a>
        ensures { result ≡ (bytes.now, 0) }
    {
        Reader { left: bytes, at: 0 }
    }

    // The offset of what is left.
    pub(crate) fn at(&self) -> usize
        ensures { result ≡ self.now.1 }
    {
        self.at
    }

    // What is left to read.
    pub(crate) fn left(&self) -> &'a [u8]
        ensures { result.now ≡ self.now.0 }
    {
        self.left
    }

    // The contents of the element that comes next, if it has this tag.
    fn element(&mut self, tag: Tag) -> Result<&'a [u8], Refusal>
        ensures reads { MatchResult result (λ c. placed (element (tag_byte tag)) self.old ≡ Ok (c.now, self.new)) (λ e. placed (element (tag_byte tag)) self.old ≡ Err e) }
        ensures short { IfOk result (λ c. self.old.1 + 2 + length c.now < 2 ^ 63) }
    {
        let at = self.at;
        // A `match`: over `map_err` the proof stays open.
        match element(tag, self.left) {
            Ok((contents, rest)) => {
                self.left = rest;
                self.at = at + contents.len() + 2;
                Ok(contents)
            }
            Err(fault) => Err(Refusal { fault, at }),
        }
    }

    // The 32-bit INTEGER that comes next.
    #[tactic(auto, using(crate::proofs::Readings::number_err, crate::proofs::Readings::number_read))]
    pub(crate) fn number(&mut self) -> Result<u32, Refusal>
        ensures { Reads number_at self.old self.new result }
    {
        let at = self.at;
        let contents = self.element(Tag::Integer)?;
        let fault = Fault::Integer;
        value(contents).ok_or(Refusal { fault, at })
    }

    // The OCTET STRING of 32 bytes that comes next.
    #[tactic(auto, using(crate::proofs::Readings::octets_err, crate::proofs::Readings::octets_bad, crate::proofs::Readings::octets_ok))]
    pub(crate) fn octets(&mut self) -> Result<[u8; 32], Refusal>
        ensures { Reads octets_at self.old self.new result }
    {
        let at = self.at;
        let contents = self.element(Tag::OctetString)?;
        let fault = Fault::Octets;
        // A `let`: over `map_err` the proof stays open.
        let Ok(mark) = <[u8; 32]>::try_from(contents) else {
            return Err(Refusal { fault, at });
        };
        Ok(mark)
    }

    // A reader of the contents of the SEQUENCE that comes next.
    #[tactic(auto, unfolding(crate::specs::Placed::sequence_at, crate::specs::Placed::inside))]
    pub(crate) fn sequence(&mut self) -> Result<Reader<'a>, Refusal>
        ensures { Reads sequence_at self.old self.new result }
    {
        let at = self.at;
        let left = self.element(Tag::Sequence)?;
        Ok(Reader { left, at: at + 2 })
    }

    // Whether nothing is left.
    #[tactic(auto, using(crate::proofs::Readings::ended_none, crate::proofs::Readings::ended_some), unfolding(crate::specs::Placed::end_at))]
    pub(crate) fn end(&self) -> Result<(), Refusal>
        ensures { Reads end_at self.now self.now result }
    {
        if !self.left.is_empty() {
            return Err(Refusal {
                fault: Fault::LeftOver,
                at: self.at,
            });
        }
        Ok(())
    }
}
