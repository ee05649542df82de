//! Which turns of an exchange suffer which loss.
ghost use Rattle.std.specs.Prelude.{◌≡◌};
ghost use Rattle.pair.specs.Pairs.{fate_seen, deed_seen};
ghost use Rattle.sweeping.specs.Plans.{loss_of, loss_in, plan_after, fate_under, deed_under};

use pair::{Call, Fate, NOISE};

/// What happens to a turn: a frame written, and what is heard after it. (No loss is one of the five: each of them has a fate, something
/// heard and a letter, so an Option would be taken apart three times.)
#[derive(Clone, Copy, Debug, PartialEq, Eq)]
pub enum Loss {
    /// nothing is lost
    Whole,
    /// the frame is lost on its way to the card
    Lost,
    /// the frame arrives spoilt
    Spoilt,
    /// silence in place of the reply
    Muted,
    /// noise in place of the reply
    Noisy,
}

/// So many whole turns, then so many losses, the digits of a number to base 4, the lowest first; whole turns after them. (The table
/// counts through these numbers, so they are no list of losses.)
#[derive(Clone, Copy, Debug, PartialEq, Eq)]
pub struct Plan {
    pub before: usize,
    pub count: usize,
    pub code: usize,
}

impl Loss {
    /// The loss that a digit stands for.
    pub fn of(digit: usize) -> Loss
        ensures { result ≡ loss_of digit }
    {
        match digit {
            0 => Loss::Lost,
            1 => Loss::Spoilt,
            2 => Loss::Muted,
            _ => Loss::Noisy,
        }
    }

    /// The fate of the turn's frame.
    pub fn fate(self) -> Fate
        ensures { fate_seen result ≡ fate_under self }
    {
        match self {
            Loss::Lost => Fate::Lost,
            Loss::Spoilt => Fate::Spoilt,
            Loss::Whole | Loss::Muted | Loss::Noisy => Fate::Whole,
        }
    }

    /// What is heard after the frame.
    pub fn heard(self) -> Call<'static>
        ensures { deed_seen result ≡ deed_under self }
    {
        match self {
            Loss::Muted => Call::Mute,
            Loss::Noisy => Call::Noise(&NOISE),
            Loss::Whole | Loss::Lost | Loss::Spoilt => Call::Hear,
        }
    }
}

impl Plan {
    /// The loss at the first turn.
    pub fn loss(self) -> Loss
        ensures { result ≡ loss_in self }
    {
        if self.before > 0 {
            return Loss::Whole;
        }
        if self.count == 0 {
            return Loss::Whole;
        }
        Loss::of(self.code % 4)
    }

    /// The plan of the turns after the first.
    pub fn after(self) -> Plan
        ensures { result ≡ plan_after self }
    {
        if self.before > 0 {
            return Plan {
                before: self.before - 1,
                ..self
            };
        }
        if self.count == 0 {
            return self;
        }
        Plan {
            before: 0,
            count: self.count - 1,
            code: self.code / 4,
        }
    }
}
