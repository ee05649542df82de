//! The calls on a pair.
ghost use Rattle.std.specs.Prelude.{◌≡◌, length};
ghost use Rattle.protocol.specs.Field.{move_of};
ghost use Rattle.pair.specs.Deeds.{call_for};
ghost use Rattle.pair.specs.Pairs.{deed_seen, act_seen, world_seen, setup_seen, Steps};
ghost use Rattle.pair.specs.Readings.{Reads};

use super::Pair;
use crate::call::{Call, Fate};
use crate::hearing::{hear_noise, hear_reply};
use crate::outcome::{Answer, Outcome, kept};
use applications::Application;
use frames::Refusal;

impl<A: Application> Pair<A> {
    /// The reader's part of a call.
    fn read(&mut self, call: Call<'_>, out: &mut [u8]) -> Result<Outcome, Refusal>
        ensures reads { Reads (setup_seen A.Application.model self.old).reader (move_of (setup_seen A.Application.model self.old) (world_seen self.old) (call_for (world_seen self.old) (length out.old) (deed_seen call.entry))) self.new.reader result out.old out.new }
        ensures card { self.new.card ≡ self.old.card }
        ensures air { self.new.air ≡ self.old.air }
    {
        match call {
            Call::Ask => kept(self.reader.ask(out)),
            Call::Start => kept(self.reader.start()),
            Call::Begin(command) => kept(self.reader.begin(command, out)),
            Call::Hear => hear_reply(&mut self.reader, &self.air, out),
            Call::Mute => kept(self.reader.silent(out)),
            Call::Noise(bytes) => hear_noise(&mut self.reader, bytes, out),
            Call::GiveUp => kept(self.reader.give_up()),
            Call::Close => kept(self.reader.close(out)),
            Call::Fetch => kept(self.reader.fetch(out)),
        }
    }

    /// One call, with the fate of the frame that it writes.
    pub fn call(&mut self, call: Call<'_>, fate: Fate, out: &mut [u8]) -> Answer
        ensures { Steps A.Application.model (act_seen call.entry fate) self.old self.new result out.old out.new }
    {
        let outcome = self.read(call, out);
        let given = self.cross(&outcome, fate, out);
        Answer { outcome, given }
    }
}
