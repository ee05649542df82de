//! What an awake card does at each frame.
ghost use Rattle.std.specs.Prelude.{◌≡◌, ◌<◌, length};
ghost use Rattle.activation.specs.Views.{pps_seen};
ghost use Rattle.applications.specs.App.{IsCommand};
ghost use Rattle.frames.specs.Blocks.{ValidBlock};
ghost use Rattle.frames.specs.Check.{open_frame};
ghost use Rattle.frames.specs.Sizes.{size_of};
ghost use Rattle.frames.specs.Views.{cid_seen, block_seen};
ghost use Rattle.protocol.specs.Settings as range;
ghost use Rattle.protocol.specs.Card.{awake, owes_nothing, gives, takes_i, on_i, on_block, pps_in, takes};

use super::{AwakeCard, reply_number};
use crate::settings::CardSettings;
use crate::taken::{Sends, Taken};
use activation::{Pps, offered, read_pps};
use applications::{Application, LONGEST_ANSWER};
use frames::{Block, CardNumber, read_block};

impl AwakeCard {
    ghost use Rattle.card.specs.Held.{awake_of, settings_of};
    ghost use Rattle.card.specs.Told.{Tells, chosen, tells, told_of, card_after};

    /// The PPS that is to be answered: the window is open, it fits the card's number, and its rates are offered.
    fn pps_in(&self, settings: &CardSettings, frame: &[u8]) -> Option<Pps>
        ensures { pps_seen result ≡ chosen (settings_of settings.now) (pps_in (settings_of settings.now) (awake_of self.now) (open_frame (size_of settings.now.fsci) frame.now)) }
    {
        if !self.window {
            return None;
        }
        let pps = read_pps(frame, settings.frame_size(), self.cid)?;
        offered(settings.ta, pps.dsi, pps.dri).then_some(pps)
    }

    /// Gives the command to the application. Its waits, and its answer, are owed.
    fn give<A: Application>(&mut self, application: &mut A, card: Option<CardNumber>) -> Taken
        requires { IsCommand (awake_of self.old).gathered }
        ensures { Tells self.new application.new result (gives A.Application.model (awake_of self.old) application.old self.old.number (cid_seen card) (awake_of self.old).gathered) }
    {
        let mut answer = [0; LONGEST_ANSWER];
        let reply = application.respond(self.gathered.gathered(), &mut answer);
        self.answer.clear();
        self.answer.append(&answer[..reply.len]).unwrap();
        Taken {
            sends: self.ask_or_answer(card, reply.waits, reply.multiplier),
            given: true,
        }
    }

    /// Takes the information of an I-block while nothing is owed: toggles, and acknowledges or gives. Past the longest command
    /// the block is ignored.
    fn gather<A: Application>(
        &mut self,
        application: &mut A,
        chaining: bool,
        card: Option<CardNumber>,
        information: &[u8],
    ) -> Taken
        requires { (0 < length information.now) × ((awake_of self.old).owes ≡ owes_nothing) }
        ensures { Tells self.new application.new result (takes_i A.Application.model (awake_of self.old) application.old chaining (cid_seen card) information.now) }
    {
        if self.gathered.append(information).is_err() {
            return Taken::alone(self.stay_quiet());
        }
        self.number = !self.number;
        if chaining {
            return Taken::alone(self.acknowledge(reply_number(card)));
        }
        self.give(application, reply_number(card))
    }

    /// An I-block is ignored while something is owed.
    fn take_information<A: Application>(
        &mut self,
        application: &mut A,
        chaining: bool,
        card: Option<CardNumber>,
        information: &[u8],
    ) -> Taken
        requires { 0 < length information.now }
        ensures { Tells self.new application.new result (on_i A.Application.model (awake_of self.old) application.old (awake_of self.old).owes chaining (cid_seen card) information.now) }
    {
        if self.owes.is_some() {
            return Taken::alone(self.stay_quiet());
        }
        self.gather(application, chaining, card, information)
    }

    /// Every valid block by its kind. Deselect is answered, and the card is to fall silent.
    fn take_block<A: Application>(&mut self, application: &mut A, block: Block<'_>) -> Taken
        requires { ValidBlock (block_seen block) }
        ensures { (set : range.CardSettings) → tells set (card_after result.sends (awake_of self.new)) application.new result ≡ told_of (on_block A.Application.model (awake_of self.old) application.old (block_seen block.entry)) }
    {
        match block {
            Block::I {
                chaining,
                card,
                information,
                ..
            } => self.take_information(application, chaining, card, information),
            Block::R { nak, number, card } => Taken::alone(self.take_r(nak, number, card)),
            Block::Deselect { card } => Taken::alone(Some(Sends::Deselect(reply_number(card)))),
            Block::Wait {
                multiplier,
                card,
                ..
            } => Taken::alone(self.take_wait(multiplier, card)),
        }
    }

    /// Every frame: a PPS that is offered while its window is open, else a block.
    pub fn take<A: Application>(
        &mut self,
        settings: &CardSettings,
        application: &mut A,
        frame: &[u8],
    ) -> Taken
        ensures { tells (settings_of settings.now) (card_after result.sends (awake_of self.new)) application.new result ≡ told_of (takes A.Application.model (settings_of settings.now) (awake (awake_of self.old)) application.old frame.now) }
    {
        if let Some(pps) = self.pps_in(settings, frame) {
            self.change(pps);
            return Taken::alone(Some(Sends::PpsResponse));
        }
        match read_block(frame, settings.frame_size(), settings.agreed(self.cid)) {
            Ok(block) => self.take_block(application, block),
            Err(_) => Taken::alone(self.stay_quiet()),
        }
    }
}
