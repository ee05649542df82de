//! What a test needs to play a session.
use exchange::{Says, Totals};
use frames::{GREATEST_FRAME, Refusal, seal};
use reader::{Answer, Outcome, Session, Settings, Stage, number_of};

/// An ATS with frame size 16 and FWI 4, without card numbers, and with them.
pub const PLAIN: [u8; 5] = [0x05, 0x70, 0x00, 0x40, 0x00];

pub const NUMBERED: [u8; 5] = [0x05, 0x70, 0x00, 0x40, 0x02];

/// What a call tells: its number, the length and the listening time of a frame, and the totals.
#[derive(Clone, Copy)]
pub struct Seen {
    pub number: u8,
    pub len: usize,
    pub cycles: u32,
    pub totals: Totals,
}

const NONE: Totals = Totals {
    fresh: 0,
    repeats: 0,
    waits: 0,
};

/// Everything that a call tells, but what the reader says.
pub fn told(answer: Answer<'_>) -> Seen {
    let (len, cycles, totals) = match answer {
        Ok(Outcome::Wrote(sent)) => (sent.len, sent.cycles, NONE),
        Ok(Outcome::Answered { len, report }) => (len, 0, report.totals),
        Ok(Outcome::Over { report, .. }) => (0, 0, report.totals),
        Ok(Outcome::Stopped(report)) => (0, 0, report.totals),
        Ok(Outcome::Fetched(len)) => (len, 0, NONE),
        _ => (0, 0, NONE),
    };
    Seen {
        number: number_of(&answer),
        len,
        cycles,
        totals,
    }
}

/// What the reader says, as a number: none, done, taken, not taken, in doubt.
pub fn says(session: &Session) -> u8 {
    match session.says() {
        Says::Nothing => 0,
        Says::Done => 1,
        Says::Taken => 2,
        Says::NotTaken => 3,
        Says::Doubt => 4,
    }
}

/// The session hears the frame of `body`; an empty body stands for silence.
pub fn after(session: &mut Session, body: &[u8], out: &mut [u8]) -> Seen {
    if body.is_empty() {
        return told(session.silent(out));
    }
    let mut frame = [0; GREATEST_FRAME];
    let n = seal(body, &mut frame).unwrap_or(0).min(GREATEST_FRAME);
    told(session.heard(&frame[0..n], out))
}

/// The frame of `body` was written.
pub fn wrote(seen: Seen, out: &[u8], body: &[u8]) -> bool {
    let mut frame = [0; GREATEST_FRAME];
    let n = seal(body, &mut frame).unwrap_or(0);
    n > 0
        && n <= GREATEST_FRAME
        && seen.number == 0
        && seen.len == n
        && out.starts_with(&frame[0..n])
}

/// The session hears one body, and writes another.
pub fn answers(session: &mut Session, heard: &[u8], out: &mut [u8], written: &[u8]) -> bool {
    let seen = after(session, heard, out);
    wrote(seen, out, written)
}

/// The session takes a command, and writes this body.
pub fn begins(session: &mut Session, command: &[u8], out: &mut [u8], written: &[u8]) -> bool {
    let seen = told(session.begin(command, out));
    wrote(seen, out, written)
}

/// The session hears this body, and answers this number.
pub fn ends(session: &mut Session, heard: &[u8], out: &mut [u8], number: u8) -> bool {
    after(session, heard, out).number == number
}

/// Frame size code 0, card number 0, and so many repeats and waits.
pub fn limited(repeats: u8, waits: u8) -> Settings {
    Settings {
        fsdi: 0,
        cid: 0,
        repeats,
        waits,
    }
}

/// An active session with a card that has answered with this ATS.
pub fn active(settings: Settings, ats: &[u8], out: &mut [u8]) -> Result<Session, Refusal> {
    let mut session = Session::new(settings)?;
    told(session.ask(out));
    after(&mut session, ats, out);
    told(session.start());
    Ok(session)
}
