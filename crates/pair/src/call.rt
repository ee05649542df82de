//! What is done with a pair.

/// A frame's way to the card.
#[derive(Clone, Copy, Debug, PartialEq, Eq)]
pub enum Fate {
    /// it arrives whole
    Whole,
    Lost,
    /// it arrives spoilt
    Spoilt,
}

/// The reader's call; what it hears is what the field lets through.
#[derive(Clone, Copy, Debug, PartialEq, Eq)]
pub enum Call<'a> {
    Ask,
    Start,
    /// a command
    Begin(&'a [u8]),
    /// the card's reply to the last frame, or silence where there is none
    Hear,
    /// silence
    Mute,
    /// these bytes, if they fail the check, and else silence
    Noise(&'a [u8]),
    GiveUp,
    Close,
    Fetch,
}

/// A call, and the fate of the frame that it writes.
#[derive(Clone, Copy, Debug, PartialEq, Eq)]
pub struct Step<'a> {
    pub call: Call<'a>,
    pub fate: Fate,
}

/// Three bytes that fail the check: what a spoilt frame arrives as.
pub static NOISE: [u8; 3] = [0, 0, 0];
