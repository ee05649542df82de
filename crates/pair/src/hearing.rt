//! What the reader hears over the field.
ghost use Rattle.std.specs.Prelude.{length};
ghost use Rattle.protocol.specs.Reader.{do_call};
ghost use Rattle.reader.specs.Sessions.{session_seen, settings_of};
ghost use Rattle.pair.specs.Airs.{reply_seen};
ghost use Rattle.pair.specs.Deeds.{hearing, hearing_noise};
ghost use Rattle.pair.specs.Readings.{Reads};

use super::air::Air;
use super::outcome::{Outcome, kept};
use frames::{Refusal, unseal};
use reader::Session;

/// The card's reply, or silence where there is none.
pub fn hear_reply(reader: &mut Session, air: &Air, out: &mut [u8]) -> Result<Outcome, Refusal>
    ensures { Reads (settings_of reader.old) (do_call (settings_of reader.old) (session_seen reader.old) (hearing (reply_seen air.now) (length out.old))) reader.new result out.old out.new }
{
    kept(reader.listen(air.heard(), out))
}

/// These bytes, if they fail the check, and else silence.
pub fn hear_noise(reader: &mut Session, bytes: &[u8], out: &mut [u8]) -> Result<Outcome, Refusal>
    ensures { Reads (settings_of reader.old) (do_call (settings_of reader.old) (session_seen reader.old) (hearing_noise bytes.now (length out.old))) reader.new result out.old out.new }
{
    match unseal(bytes, bytes.len()) {
        Ok(_) => kept(reader.silent(out)),
        Err(_) => kept(reader.heard(bytes, out)),
    }
}
