//! ATS, the answer to select: the card tells the reader what it can do.
ghost use Rattle.std.specs.Prelude.{◌≡◌, ◌≤◌, true, length, IfOk};
ghost use Rattle.activation.specs.Ats.{announced, length_byte_good, t0_good, judged, read_interface, read_format, read_ats, hear_ats, byte_or, behind};
ghost use Rattle.activation.specs.Laws.{ValidAts};
ghost use Rattle.activation.specs.Views.{said_by, ats_seen};
ghost use Rattle.activation.specs.Writing.{ats_valid};

use super::fault::ActivationFault;
use super::sizes::GREATEST_CODE;
use frames::unseal;

/// The check's bytes, which TL does not count.
const CHECK: usize = 2;

/// Bits of T0: TA, TB and TC follow.
const TA: u8 = 0x10;

const TB: u8 = 0x20;

const TC: u8 = 0x40;

/// A bit that is 0 in T0.
const T0_ZERO: u8 = 0x80;

/// A bit that is 0 in TA.
const TA_ZERO: u8 = 0x08;

/// What holds where a byte is absent: frame size code 2, divisor 1, waiting time 4 and guard time 0, card numbers.
const NO_T0: u8 = 0x02;

const NO_TA: u8 = 0x00;

const NO_TB: u8 = 0x40;

const NO_TC: u8 = 0x02;

/// The codes of times are below this one.
pub const TIMES: u8 = 15;

/// TC has two bits.
const TC_VALUES: u8 = 4;

/// The place of TA, or of the byte that stands for it, TL being 1.
const BEHIND_T0: usize = 3;

/// What an ATS says: the code of the card's frame size, the divisors offered, the codes of the waiting time and the guard
/// time, what else is supported, and the historical bytes, as a part of what was heard.
#[derive(Clone, Copy, Debug, PartialEq, Eq)]
pub struct Ats<'a> {
    pub fsci: u8,
    pub ta: u8,
    pub fwi: u8,
    pub sfgi: u8,
    pub tc: u8,
    pub historical: &'a [u8],
}

impl Ats<'_> {
    /// No value is reserved.
    pub fn is_valid(self) -> bool
        ensures { result ≡ ats_valid (said_by self.entry) }
    {
        self.fsci <= GREATEST_CODE
            && self.ta & TA_ZERO == 0
            && self.fwi < TIMES
            && self.sfgi < TIMES
            && self.tc < TC_VALUES
    }
}

/// How many bytes T0 announces.
fn announced(t0: u8) -> usize
    ensures { result ≡ announced t0 }
{
    usize::from(t0 & TA != 0) + usize::from(t0 & TB != 0) + usize::from(t0 & TC != 0)
}

/// The byte that stands first if it is there, else what holds without it, and the bytes behind.
fn next_byte(there: bool, absent: u8, rest: &[u8]) -> (u8, &[u8])
    requires { there ≡ true → 1 ≤ length rest.now }
    ensures byte { result.0 ≡ byte_or there absent rest.now }
    ensures behind { result.1.now ≡ behind there rest.now }
{
    match rest {
        [byte, behind @ ..] if there => (*byte, behind),
        _ => (absent, rest),
    }
}

/// TA, TB and TC are judged in their order.
fn judged<'a>(
    t0: u8,
    ta: u8,
    tb: u8,
    tc: u8,
    historical: &'a [u8],
) -> Result<Ats<'a>, ActivationFault>
    ensures { ats_seen result ≡ judged t0 ta tb tc historical.now }
{
    let mut place = BEHIND_T0;
    if ta & TA_ZERO != 0 {
        return Err(ActivationFault::Reserved { place });
    }
    if t0 & TA != 0 {
        place += 1;
    }
    let (fwi, sfgi) = (tb / 16, tb % 16);
    if fwi >= TIMES || sfgi >= TIMES {
        return Err(ActivationFault::Reserved { place });
    }
    if t0 & TB != 0 {
        place += 1;
    }
    if tc >= TC_VALUES {
        return Err(ActivationFault::Reserved { place });
    }
    Ok(Ats {
        fsci: t0 % 16,
        ta,
        fwi,
        sfgi,
        tc,
        historical,
    })
}

/// TA, TB and TC as T0 announces them, then the historical bytes.
fn interface_bytes(t0: u8, rest: &[u8]) -> Result<Ats<'_>, ActivationFault>
    requires { announced t0 ≤ length rest.now }
    ensures { ats_seen result ≡ read_interface t0 rest.now }
{
    let (ta, rest) = next_byte(t0 & TA != 0, NO_TA, rest);
    let (tb, rest) = next_byte(t0 & TB != 0, NO_TB, rest);
    let (tc, historical) = next_byte(t0 & TC != 0, NO_TC, rest);
    judged(t0, ta, tb, tc, historical)
}

/// T0's reserved bit is 0, and the code of the frame size is not reserved.
fn t0_good(t0: u8) -> bool
    ensures { result ≡ t0_good t0 }
{
    t0 & T0_ZERO == 0 && t0 % 16 <= GREATEST_CODE
}

/// What stands behind TL: nothing, or T0 and what it announces.
fn format_of(format: &[u8]) -> Result<Ats<'_>, ActivationFault>
    ensures { ats_seen result ≡ read_format format.now }
{
    let [t0, rest @ ..] = format else {
        return judged(NO_T0, NO_TA, NO_TB, NO_TC, format);
    };
    if !t0_good(*t0) {
        return Err(ActivationFault::Reserved { place: 2 });
    }
    if rest.len() < announced(*t0) {
        return Err(ActivationFault::LengthByte);
    }
    interface_bytes(*t0, rest)
}

/// TL is 1 to what the reader's frame holds, and counts the bytes heard.
fn length_byte_good(fsd: usize, tl: u8, heard: usize) -> bool
    ensures { result ≡ length_byte_good fsd tl heard }
{
    let tl = usize::from(tl);
    0 < tl && tl <= fsd.saturating_sub(CHECK) && tl == heard
}

/// A body as an ATS, at a reader of this frame size.
pub fn ats_of(body: &[u8], fsd: usize) -> Result<Ats<'_>, ActivationFault>
    ensures read { ats_seen result ≡ read_ats fsd body.now }
    ensures valid { IfOk result (λ a. ValidAts (said_by a)) }
{
    match body {
        [tl, format @ ..] if length_byte_good(fsd, *tl, body.len()) => format_of(format),
        _ => Err(ActivationFault::LengthByte),
    }
}

/// A frame as an ATS, at a reader of this frame size.
pub fn hear_ats(frame: &[u8], fsd: usize) -> Result<Ats<'_>, ActivationFault>
    ensures read { ats_seen result ≡ hear_ats fsd frame.now }
    ensures valid { IfOk result (λ a. ValidAts (said_by a)) }
{
    ats_of(unseal(frame, fsd)?, fsd)
}
