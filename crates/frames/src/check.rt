//! The frame check CRC_A, bit by bit.
ghost use Rattle.std.specs.Prelude.{◌≡◌};
ghost use Rattle.frames.specs.Check.{shift, take_in, register};

const START: u16 = 0x6363;

const POLYNOMIAL: u16 = 0x8408;

fn shifted(register: u16) -> u16
    ensures { result ≡ shift register }
{
    if register % 2 == 1 {
        register / 2 ^ POLYNOMIAL
    } else {
        register / 2
    }
}

fn taken_in(register: u16, byte: u8) -> u16
    ensures { result ≡ take_in register byte }
{
    let mut r = register ^ u16::from(byte);
    for _ in 0u8..8 {
        r = shifted(r);
    }
    r
}

/// The register after all of `bytes`.
pub fn check_register(bytes: &[u8]) -> u16
    ensures { result ≡ register bytes.now }
{
    let mut r = START;
    for byte in bytes {
        r = taken_in(r, *byte);
    }
    r
}
