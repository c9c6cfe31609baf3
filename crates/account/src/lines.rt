// The line of a part: what it says, or why it says nothing.
use crate::verdict::Verdict;
use card::Part;
use certificate::{Base, Header, Ianda, Id};

pub(crate) mod calls;

#[derive(Clone, Copy)]
pub enum PartLine {
    // Part 1, with what its mark was found to be.
    Id(Id, Verdict),
    // Part 3, likewise.
    Ianda(Ianda, Verdict),
    // Part 2 or 4, with role and clearance as the numbers that stand for them. A line prints any two numbers: an enum would take fewer.
    Grant {
        part: Part,
        header: Header,
        base: Base,
        role: u32,
        clearance: u32,
        verdict: Verdict,
    },
    // The bytes are no certificate: the number of the fault, which may be any here too, and its offset.
    Fault {
        part: Part,
        fault: u32,
        at: usize,
    },
    // There is no clearance kind to read the part by.
    NoKind(Part),
}
