//! The kind of block that each control byte begins.
ghost use Rattle.std.specs.Prelude.{◌≡◌};
ghost use Rattle.frames.specs.Reading.{kind_of};
ghost use Rattle.frames.specs.Kinds.{kind_seen};

#[derive(Clone, Copy, Debug, PartialEq, Eq)]
pub enum Kind {
    I,
    R,
    Deselect,
    Wait,
}

const I: Option<Kind> = Some(Kind::I);

const R: Option<Kind> = Some(Kind::R);

const D: Option<Kind> = Some(Kind::Deselect);

const W: Option<Kind> = Some(Kind::Wait);

/// No block begins with this byte.
const N: Option<Kind> = None;

/// For each control byte the kind that it begins.
static KINDS: [Option<Kind>; 256] = [
    // 00 to 0F
    N, N, I, I, N, N, N, N, N, N, I, I, N, N, N, N,
    // 10 to 1F
    N, N, I, I, N, N, N, N, N, N, I, I, N, N, N, N,
    // 20 to 2F
    N, N, N, N, N, N, N, N, N, N, N, N, N, N, N, N,
    // 30 to 3F
    N, N, N, N, N, N, N, N, N, N, N, N, N, N, N, N,
    // 40 to 4F
    N, N, N, N, N, N, N, N, N, N, N, N, N, N, N, N,
    // 50 to 5F
    N, N, N, N, N, N, N, N, N, N, N, N, N, N, N, N,
    // 60 to 6F
    N, N, N, N, N, N, N, N, N, N, N, N, N, N, N, N,
    // 70 to 7F
    N, N, N, N, N, N, N, N, N, N, N, N, N, N, N, N,
    // 80 to 8F
    N, N, N, N, N, N, N, N, N, N, N, N, N, N, N, N,
    // 90 to 9F
    N, N, N, N, N, N, N, N, N, N, N, N, N, N, N, N,
    // A0 to AF
    N, N, R, R, N, N, N, N, N, N, R, R, N, N, N, N,
    // B0 to BF
    N, N, R, R, N, N, N, N, N, N, R, R, N, N, N, N,
    // C0 to CF
    N, N, D, N, N, N, N, N, N, N, D, N, N, N, N, N,
    // D0 to DF
    N, N, N, N, N, N, N, N, N, N, N, N, N, N, N, N,
    // E0 to EF
    N, N, N, N, N, N, N, N, N, N, N, N, N, N, N, N,
    // F0 to FF
    N, N, W, N, N, N, N, N, N, N, W, N, N, N, N, N,
];

/// The kind of block that `control` begins, if it begins any.
pub fn kind_of(control: u8) -> Option<Kind>
    ensures { kind_seen result ≡ kind_of control }
{
    KINDS[usize::from(control)]
}
