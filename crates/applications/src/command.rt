//! Commands, as every application takes them apart.
ghost use Rattle.std.specs.Prelude.{◌≡◌};
ghost use Rattle.applications.specs.Command.{judged, head_faults, parts_of, as_parts};

use crate::status::StatusWord;

/// A command of the application's class: what stands behind the class byte.
#[derive(Clone, Copy, Debug, PartialEq, Eq)]
pub struct Command<'a> {
    pub instruction: u8,
    pub p1: u8,
    pub p2: u8,
    pub body: &'a [u8],
}

impl<'a> Command<'a> {
    /// Takes a command apart, unless it is too short or of another class.
    pub(crate) fn of_class(class: u8, bytes: &'a [u8]) -> Result<Command<'a>, StatusWord>
        ensures { as_parts result ≡ judged (head_faults class bytes.now) (parts_of bytes.now) }
    {
        let [first, instruction, p1, p2, body @ ..] = bytes else {
            return Err(StatusWord::WrongLength);
        };
        if *first != class {
            return Err(StatusWord::ClassNotSupported);
        }
        Ok(Command {
            instruction: *instruction,
            p1: *p1,
            p2: *p2,
            body,
        })
    }
}
