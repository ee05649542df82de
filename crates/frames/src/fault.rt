//! Why what was heard is no frame, or no block.
ghost use Rattle.std.specs.Prelude.{◌≡◌, Some};
ghost use Rattle.frames.specs.Causes.{cause};
ghost use Rattle.frames.specs.Faults.{layer_seen, layer_name, cause_seen, frame_cause, block_cause};
ghost use Rattle.frames.specs.declared.fault.BlockFault.TheVariants.{Frame as frame_fault};

use std::fmt;

/// The layer at which a cause was found.
#[derive(Clone, Copy, Debug, PartialEq, Eq)]
pub enum Layer {
    Frame,
    Activation,
    Block,
}

impl fmt::Display for Layer {
    ghost output = { λ layer. Some (layer_name layer) };

    fn fmt<W: fmt::Write>(&self, f: &mut fmt::Formatter<W>) -> fmt::Result {
        f.write_str(match self {
            Layer::Frame => "frame",
            Layer::Activation => "activation",
            Layer::Block => "block",
        })
    }
}

/// A cause: its number, the place of the byte at fault, counted from 1 (0 where there is none), and its layer.
#[derive(Clone, Copy, Debug, PartialEq, Eq)]
pub struct Cause {
    pub number: u8,
    pub place: usize,
    pub layer: Layer,
}

/// Why what was heard is no frame.
#[derive(Clone, Copy, Debug, PartialEq, Eq)]
pub enum FrameFault {
    /// nothing was heard
    Silence,
    /// under 3 bytes
    Short,
    /// longer than the receiver's frame size
    Long,
    /// the last two bytes are not the check of those before
    Check,
}

/// Why what was heard is no block.
#[derive(Clone, Copy, Debug, PartialEq, Eq)]
pub enum BlockFault {
    /// it is no frame
    Frame(FrameFault),
    /// a control byte without a kind
    Control,
    /// a length that blocks of the kind do not have
    Length,
    /// a card number byte that is none, or not the agreed one
    Card,
    /// a reserved multiplier, at this place
    Multiplier { place: usize },
}

impl FrameFault {
    pub fn cause(self) -> Cause
        ensures { cause_seen result ≡ frame_cause self }
    {
        let number = match self {
            FrameFault::Silence => 20,
            FrameFault::Short => 21,
            FrameFault::Long => 22,
            FrameFault::Check => 23,
        };
        Layer::Frame.cause(number, 0)
    }
}

impl Layer {
    /// A cause of this layer.
    pub fn cause(self, number: u8, place: usize) -> Cause
        ensures { cause_seen result ≡ cause number place (layer_seen self) }
    {
        Cause {
            number,
            place,
            layer: self,
        }
    }
}

impl BlockFault {
    pub fn cause(self) -> Cause
        ensures { cause_seen result ≡ block_cause self }
    {
        match self {
            BlockFault::Frame(fault) => fault.cause(),
            BlockFault::Control => Layer::Block.cause(24, 1),
            BlockFault::Length => Layer::Block.cause(25, 0),
            BlockFault::Card => Layer::Block.cause(26, 2),
            BlockFault::Multiplier { place } => Layer::Block.cause(28, place),
        }
    }
}

impl From<FrameFault> for BlockFault {
    ghost from_gives = { λ fault r. r ≡ frame_fault fault };

    fn from(fault: FrameFault) -> BlockFault {
        BlockFault::Frame(fault)
    }
}
