//! Frames on their way to the card.
ghost use Rattle.std.specs.Prelude.{◌≤◌, length, take};
ghost use Rattle.protocol.specs.Card.{garbled, quiet, not_given};
ghost use Rattle.protocol.specs.Field.{world, crossing, arrives, crosses, whole};
ghost use Rattle.pair.specs.Answers.{answer_seen, size_in};
ghost use Rattle.pair.specs.Pairs.{fate_seen, world_seen, setup_seen, Crossed};

use super::Pair;
use crate::call::{Fate, NOISE};
use crate::delivery::deliver;
use crate::outcome::Outcome;
use applications::Application;
use frames::Refusal;

impl<A: Application> Pair<A> {
    /// A frame arrives spoilt.
    fn garble(&mut self) -> bool
        ensures { Crossed A.Application.model (crossing (world (world_seen self.old).reader (garbled (world_seen self.old).card) (world_seen self.old).state quiet) not_given) self.old self.new result }
    {
        deliver(&mut self.card, &mut self.air, &NOISE, false)
    }

    /// A frame arrives whole. At another rate than the card listens at it is as a spoilt one.
    fn arrive(&mut self, frame: &[u8]) -> bool
        ensures { Crossed A.Application.model (arrives (setup_seen A.Application.model self.old) (world_seen self.old).reader (world_seen self.old).card (world_seen self.old).state frame.now whole) self.old self.new result }
    {
        if self.reader.dri() != self.card.listens_at() {
            return self.garble();
        }
        let audible = self.reader.dsi() == self.card.sends_at();
        deliver(&mut self.card, &mut self.air, frame, audible)
    }

    /// The frame is lost.
    fn lose(&mut self) -> bool
        ensures { Crossed A.Application.model (crossing (world (world_seen self.old).reader (world_seen self.old).card (world_seen self.old).state quiet) not_given) self.old self.new result }
    {
        self.air.hush();
        false
    }

    /// The frame of this length at the front of `out` goes to the card.
    fn carry(&mut self, len: usize, fate: Fate, out: &[u8]) -> bool
        requires { len ≤ length out.now }
        ensures { Crossed A.Application.model (arrives (setup_seen A.Application.model self.old) (world_seen self.old).reader (world_seen self.old).card (world_seen self.old).state (take len out.now) (fate_seen fate)) self.old self.new result }
    {
        match fate {
            Fate::Whole => self.arrive(&out[0..len]),
            Fate::Lost => self.lose(),
            Fate::Spoilt => self.garble(),
        }
    }

    /// What an outcome does in the field: a frame is on its way; a refused call and fetch move nothing; after any other call
    /// there is no more reply to hear.
    pub(crate) fn cross(
        &mut self,
        outcome: &Result<Outcome, Refusal>,
        fate: Fate,
        out: &[u8],
    ) -> bool
        requires { size_in outcome.now ≤ length out.now }
        ensures { Crossed A.Application.model (crosses (setup_seen A.Application.model self.old) (world_seen self.old) (world_seen self.old).reader (answer_seen outcome.now out.now) (fate_seen fate)) self.old self.new result }
    {
        match outcome {
            Ok(Outcome::Wrote(sent)) => self.carry(sent.len, fate, out),
            Err(_) | Ok(Outcome::Fetched(_)) => false,
            Ok(_) => self.lose(),
        }
    }
}
