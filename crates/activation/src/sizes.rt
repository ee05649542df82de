//! Frame sizes, and the codes that stand for them.
ghost use Rattle.std.specs.Prelude.{◌≡◌};
ghost use Rattle.activation.specs.Codes.{size_for};

use frames::GREATEST_FRAME;

/// The greatest code of a frame size.
pub const GREATEST_CODE: u8 = 8;

static SIZES: [usize; 9] = [16, 24, 32, 40, 48, 64, 96, 128, GREATEST_FRAME];

/// The frame size that a code stands for.
pub fn size_of_code(code: u8) -> Option<usize>
    ensures { result ≡ size_for code }
{
    SIZES.get(usize::from(code)).copied()
}
