//! Status words, the last two bytes of every answer.
ghost use Rattle.std.specs.Prelude.{◌≡◌};
ghost use Rattle.applications.specs.Status.{word_of};

#[derive(Clone, Copy, Debug, PartialEq, Eq)]
pub enum StatusWord {
    Good,
    WrongLength,
    ConditionsNotSatisfied,
    WrongParameters,
    InstructionNotSupported,
    ClassNotSupported,
}

impl StatusWord {
    /// The two bytes, as they stand in an answer.
    pub fn bytes(self) -> [u8; 2]
        ensures { result ≡ word_of self }
    {
        match self {
            StatusWord::Good => [0x90, 0x00],
            StatusWord::WrongLength => [0x67, 0x00],
            StatusWord::ConditionsNotSatisfied => [0x69, 0x85],
            StatusWord::WrongParameters => [0x6b, 0x00],
            StatusWord::InstructionNotSupported => [0x6d, 0x00],
            StatusWord::ClassNotSupported => [0x6e, 0x00],
        }
    }
}
