//! What a command wants of the metre counter.
ghost use Rattle.std.specs.Prelude.{◌≡◌};
ghost use Rattle.applications.specs.Metre.{instruction_of, request_of};

use crate::command::Command;
use crate::status::StatusWord;

const CLASS: u8 = 0x80;

/// A count has four bytes, high first.
const COUNT_SIZE: u8 = 4;

#[derive(Clone, Copy, Debug, PartialEq, Eq)]
pub enum Instruction {
    DrawMetres,
    AskCount,
}

impl TryFrom<u8> for Instruction {
    type Error = StatusWord;

    ghost try_from_gives = { λ byte read. read ≡ instruction_of byte };

    fn try_from(byte: u8) -> Result<Instruction, StatusWord> {
        match byte {
            0x10 => Ok(Instruction::DrawMetres),
            0x12 => Ok(Instruction::AskCount),
            _ => Err(StatusWord::InstructionNotSupported),
        }
    }
}

#[derive(Clone, Copy, Debug, PartialEq, Eq)]
pub enum Request {
    Draw(u32),
    Ask,
}

impl Request {
    /// Judges a command: a request, or the status word of its first fault.
    pub(super) fn read(command: &[u8]) -> Result<Request, StatusWord>
        ensures { result ≡ request_of command.now }
    {
        let command = Command::of_class(CLASS, command)?;
        let instruction = Instruction::try_from(command.instruction)?;
        if command.p1 != 0 || command.p2 != 0 {
            return Err(StatusWord::WrongParameters);
        }
        match (instruction, command.body) {
            (Instruction::DrawMetres, [COUNT_SIZE, a, b, c, d]) => {
                let metres = u32::from_be_bytes([*a, *b, *c, *d]);
                Ok(Request::Draw(metres))
            }
            (Instruction::AskCount, [COUNT_SIZE]) => Ok(Request::Ask),
            _ => Err(StatusWord::WrongLength),
        }
    }
}
