//! What a command wants of the yarn record.
ghost use Rattle.std.specs.Prelude.{◌≡◌, [], ◌∷◌};
ghost use Rattle.applications.specs.Command.{judged};
ghost use Rattle.applications.specs.Yarn.{instruction_of, read_length, wanted, as_wanted, past_end, request_of};

use super::RECORD_SIZE;
use crate::command::Command;
use crate::status::StatusWord;

const CLASS: u8 = 0x00;

#[derive(Clone, Copy, Debug, PartialEq, Eq)]
pub enum Instruction {
    ReadBinary,
    UpdateBinary,
}

impl TryFrom<u8> for Instruction {
    type Error = StatusWord;

    ghost try_from_gives = { λ byte read. read ≡ instruction_of byte };

    fn try_from(byte: u8) -> Result<Instruction, StatusWord> {
        match byte {
            0xb0 => Ok(Instruction::ReadBinary),
            0xd6 => Ok(Instruction::UpdateBinary),
            _ => Err(StatusWord::InstructionNotSupported),
        }
    }
}

/// How many bytes a read wants.
fn read_length(le: u8) -> usize
    ensures { result ≡ read_length le }
{
    if le == 0 { 256 } else { usize::from(le) }
}

#[derive(Clone, Copy, Debug, PartialEq, Eq)]
pub enum Request<'a> {
    Read { offset: usize, len: usize },
    Write { offset: usize, bytes: &'a [u8] },
}

impl<'a> Request<'a> {
    /// Judges a command: a request, or the status word of its first fault.
    pub(super) fn read(command: &'a [u8]) -> Result<Request<'a>, StatusWord>
        ensures { as_wanted result ≡ request_of command.now }
    {
        let command = Command::of_class(CLASS, command)?;
        let instruction = Instruction::try_from(command.instruction)?;
        let offset = usize::from(command.p1) * 256 + usize::from(command.p2);
        match (instruction, command.body) {
            (Instruction::ReadBinary, [le]) => {
                let len = read_length(*le);
                Request::Read { offset, len }.within_record()
            }
            (Instruction::UpdateBinary, [lc, bytes @ ..])
                if *lc != 0 && usize::from(*lc) == bytes.len() => {
                Request::Write { offset, bytes }.within_record()
            }
            _ => Err(StatusWord::WrongLength),
        }
    }

    /// The same request, unless it goes past the end of the record.
    fn within_record(self) -> Result<Request<'a>, StatusWord>
        ensures { as_wanted result ≡ judged (past_end (wanted self.entry) ∷ []) (wanted self.entry) }
    {
        let end = match self {
            Request::Read { offset, len } => offset.saturating_add(len),
            Request::Write { offset, bytes } => offset.saturating_add(bytes.len()),
        };
        if end > RECORD_SIZE {
            return Err(StatusWord::WrongParameters);
        }
        Ok(self)
    }
}
