//! A closing session: deselect is out, until the card is off.
ghost use Rattle.std.specs.Prelude.{◌≡◌, ◌≤◌, true, false, length};
ghost use Rattle.frames.specs.Sizes.{greatest_frame};
ghost use Rattle.frames.specs.Views.{cid_seen, agreement};
ghost use Rattle.frames.specs.Writing.{cid_in_range};
ghost use Rattle.protocol.specs.Reader.{on_deselect, agreed_of};
ghost use Rattle.stages.specs.Calls.{Makes};
ghost use Rattle.stages.specs.Results.{at_deselect, outcome_by};
ghost use Rattle.stages.specs.Setups.{setup_seen};
ghost use Rattle.stages.specs.Stages.{closing_seen, closed_seen, latest_link, link_held};

use super::{Closed, Closing, Listen, Stage};
use crate::next::{AfterDeselect, Heard};
use crate::outcome::Outcome;
use crate::requests::{is_deselect, write_deselect};
use activation::Ats;
use exchange::{Link, Sent};
use frames::{Agreed, CardNumber, GREATEST_FRAME, Refusal};

impl Listen for Closing {
    type Next = AfterDeselect;

    ghost next = { at_deselect };

    fn listen<'a>(
        self,
        bytes: Option<&'a [u8]>,
        out: &mut [u8],
    ) -> Heard<'a, AfterDeselect, Closing> {
        if out.len() < GREATEST_FRAME {
            return Err((self, Refusal::Buffer));
        }
        if is_deselect(bytes, self.setup.fsd(), self.agreed()) {
            let stage = Closed { closing: self };
            return Ok((AfterDeselect::Closed(stage), Outcome::Off));
        }
        Ok(self.again(out))
    }
}

impl Closing {
    /// What the reader holds of the card; none where no card was woken.
    pub fn link(&self) -> Option<Link>
        ensures { link_held result ≡ (closing_seen self.now).link }
    {
        self.view().link
    }

    /// Deselect again, while there are repeats left.
    fn again<'a>(self, out: &mut [u8]) -> (AfterDeselect, Outcome<Ats<'a>>)
        requires { greatest_frame ≤ length out.old }
        ensures { Makes (setup_seen self.setup) (on_deselect (setup_seen self.setup) (closing_seen self).link (closing_seen self).exchange false) (at_deselect result.0 (outcome_by result.1 out.new)) out.old out.new }
    {
        if self.tries >= self.setup.repeats() {
            let stage = Closed { closing: self };
            return (AfterDeselect::Closed(stage), Outcome::Unanswered);
        }
        let sent = write_deselect(self.card(), out).unwrap();
        let stage = Closing {
            setup: self.setup,
            latest: self.latest,
            tries: self.tries + 1,
        };
        (AfterDeselect::Closing(stage), Outcome::Wrote(sent))
    }

    /// The card number in the reader's blocks.
    fn card(&self) -> Option<CardNumber>
        ensures number { cid_seen result ≡ (latest_link self.now.latest).cid }
        ensures range { cid_in_range (cid_seen result) ≡ true }
    {
        self.link().and_then(Link::card)
    }

    /// Which card numbers the reader takes in the card's blocks.
    fn agreed(&self) -> Agreed
        ensures { agreement result ≡ agreed_of (latest_link self.now.latest).cid }
    {
        self.link().map_or(Agreed::NoNumber, Link::agreed)
    }
}

impl Closed {
    /// What the reader holds of the card; none where no card was woken.
    pub fn link(&self) -> Option<Link>
        ensures { link_held result ≡ (closed_seen self.now).link }
    {
        self.closing.link()
    }
}
