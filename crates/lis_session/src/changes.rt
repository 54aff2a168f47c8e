//! Commands that change the store.

ghost use Rattle.std.specs.Prelude.{◌≡◌, true};
ghost use Rattle.lis_model.specs.declared.limits.Limits.{Limits};
ghost use Rattle.lis_model.specs.Step.{Situation, done};
ghost use Rattle.lis_store.specs.Writes.{IsWhole, written};
ghost use Rattle.lis_session.specs.Parts.{is_change};

use lis_line::reader::Payload;
use lis_model::command::Command;
use lis_store::laws::create_is_add;
use lis_store::{NewFile, Write};

/// Whether a command requests a change of the store.
pub fn is_change(command: &Command) -> bool
    ensures { result ≡ is_change command.now }
{
    match command {
        Command::Mkdir(_) | Command::Rmdir(_) | Command::Axiom(..) | Command::Unaxiom(..) => true,
        Command::Create(..) | Command::Add(..) | Command::Write(_) => true,
        Command::Mv(..) | Command::Rename(..) | Command::Rm(_) => true,
        Command::Cat(_) | Command::Props(_) | Command::Way(_) => false,
        Command::Cd(_) | Command::Pwd | Command::Ls | Command::Stat => false,
    }
}

/// The change that a command requests.
pub(crate) fn write_of<'a>(command: &'a Command, payload: &'a Payload) -> Write<'a>
    requires change { is_change command.now ≡ true }
    ensures written { (now : Situation) → written now result ≡ done now command.now payload.now }
    ensures whole { (limits : Limits) → IsWhole limits result }
{
    let bytes = payload.bytes();
    let size = payload.size();
    match command {
        Command::Mkdir(word) => Write::Declare(word),
        Command::Rmdir(word) => Write::Undeclare(word),
        Command::Axiom(left, right) => Write::Axiom(left, right),
        Command::Unaxiom(left, right) => Write::Unaxiom(left, right),
        Command::Create(name, tags) => {
            // To create a file is to add one without bytes.
            create_is_add();
            Write::Add(NewFile {
                name,
                tags,
                bytes: &[],
                size: 0,
            })
        }
        Command::Add(name, tags) => Write::Add(NewFile {
            name,
            tags,
            bytes,
            size,
        }),
        Command::Write(name) => Write::Write(name, bytes, size),
        Command::Mv(name, text) => Write::Retag(name, text),
        Command::Rename(name, other) => Write::Rename(name, other),
        Command::Rm(name) => Write::Remove(name),
        Command::Cat(_) | Command::Props(_) | Command::Way(_) => unreachable!(),
        Command::Cd(_) | Command::Pwd | Command::Ls | Command::Stat => unreachable!(),
    }
}
