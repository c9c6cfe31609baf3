// A line of the script: what it does, and what it prints.
ghost use Rattle.std.specs.Prelude.{◌≡◌, ◌++◌, OnOk};
ghost use Rattle.command.specs.Commands.{said, line_of};
ghost use Rattle.script.specs.Lines.{carried_out, account_of, session_after, printed_by};
ghost use Rattle.script.specs.Sessions.{Takes, Prints};

use crate::session::Session;
use crate::stop::Stop;
use account::{Reason, refused_line};
use card::Part;
use command::{Command, keys_of};
use std::alloc::AllocError;

impl Session {
    fn carry_out(&mut self, command: Command, out: &mut Vec<u8>) -> Result<(), Stop>
        ensures after { Takes (carried_out self.old (said command.entry)) self.new result }
        ensures printed { Prints (account_of self.old (said command.entry)) out.old.items out.new.items result }
    {
        match command {
            Command::Nothing => Ok(()),
            Command::Clearance(kind) => {
                self.kind = Some(kind);
                Ok(())
            }
            Command::Seal(words) => {
                self.keys = keys_of(*self.cards.allocator(), words)?;
                Ok(())
            }
            Command::Card {
                label,
                number,
                writable,
            } => self.add_card(label, number, writable),
            Command::Part { label, place, hex } => self.put_hex(label, place, hex),
            Command::Id { label, fields } => self.put_certificate(label, Part::Id, fields),
            Command::Grant {
                label,
                place,
                fields,
            } => self.put_grant_by_kind(label, place, fields),
            Command::Ianda { label, fields } => self.put_certificate(label, Part::Ianda, fields),
            Command::Show { label } => self.show(label, out),
        }
    }

    // Carries out the n-th line, which stands without its newline, and puts what it prints behind `out`.
    pub(crate) fn line(
        &mut self,
        n: usize,
        line: &[u8],
        out: &mut Vec<u8>,
    ) -> Result<(), AllocError>
        ensures after { OnOk result (self.new ≡ session_after self.old (line_of line.now)) }
        ensures printed { OnOk result (out.new.items ≡ out.old.items ++ printed_by self.old n (line_of line.now)) }
    {
        let Some(command) = Command::of(line) else {
            return refused_line(out, n, Reason::NotUnderstood);
        };
        match self.carry_out(command, out) {
            Ok(()) => Ok(()),
            Err(Stop::Refused(why)) => refused_line(out, n, why),
            Err(Stop::NoMemory(e)) => Err(e),
        }
    }
}
