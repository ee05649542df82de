//! Why a call is refused for a fault of the host's own.
ghost use Rattle.std.specs.Prelude.{◌≡◌};
ghost use Rattle.frames.specs.Refused.{refusal_number};

#[derive(Clone, Copy, Debug, PartialEq, Eq)]
pub enum Refusal {
    /// a setting is out of its range
    Setting,
    /// a rate that the card does not offer
    Rate,
    /// a length that cannot be sent
    Length,
    /// a call that does not belong to the stage
    Stage,
    /// a buffer that may be too small
    Buffer,
}

impl Refusal {
    /// The number that stands for the refusal.
    pub fn number(self) -> u8
        ensures { result ≡ refusal_number self }
    {
        match self {
            Refusal::Setting => 1,
            Refusal::Rate => 2,
            Refusal::Length => 3,
            Refusal::Stage => 4,
            Refusal::Buffer => 5,
        }
    }
}
