//! The bits of a control byte, by their weights.
ghost use Rattle.std.specs.Prelude.{◌≡◌, ◌+◌, ◌≤◌};
ghost use Rattle.frames.specs.Blocks.{weigh};
ghost use Rattle.frames.specs.Reading.{has};

/// Chaining in an I-block, NAK in an R-block.
pub const FLAG: u8 = 0x10;

/// A card number byte follows.
pub const CARD: u8 = 0x08;

pub const NUMBER: u8 = 0x01;

/// The bit of this weight is set in a control byte.
pub fn has_bit(weight: u8, control: u8) -> bool
    ensures { result ≡ has weight control }
{
    control & weight != 0
}

/// A bit as it counts in a control byte.
pub fn weighed(weight: u8, bit: bool) -> u8
    ensures value { result ≡ weigh weight bit }
    ensures bound { result ≤ weight }
{
    if bit { weight } else { 0 }
}

/// The control byte of a block with a block number, from its fixed bits; `flag` is chaining or NAK.
pub fn numbered_control(fixed: u8, flag: bool, card: bool, number: bool) -> u8
    requires { fixed ≤ 0xA2 }
    ensures { result ≡ fixed + weigh 0x10 flag + weigh 0x08 card + weigh 0x01 number }
{
    fixed + weighed(FLAG, flag) + weighed(CARD, card) + weighed(NUMBER, number)
}
