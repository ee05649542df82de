//! What a session tells at any stage.
ghost use Rattle.std.specs.Prelude.{◌≡◌};
ghost use Rattle.exchange.specs.Views.{says_seen};
ghost use Rattle.protocol.specs.Reader.{fetch as fetches, says as says_in};
ghost use Rattle.stages.specs.Calls.{Does};
ghost use Rattle.stages.specs.Setups.{wished};
ghost use Rattle.stages.specs.Stages.{link_held};
ghost use Rattle.reader.specs.Sessions.{session_seen, settings_of, after_call, new_seen, new_for};

use super::{Answer, Session};
use exchange::{Link, Says};
use frames::Refusal;
use stages::{Fetch, Outcome, Settings, Stage, Unwoken, View};

impl Stage for Session {
    ghost settings = { settings_of };

    ghost reader = { session_seen };

    fn view(&self) -> View {
        match self {
            Session::Unwoken(stage) => stage.view(),
            Session::Asking(stage) => stage.view(),
            Session::Woken(stage) => stage.view(),
            Session::Failed(stage) => stage.view(),
            Session::Idle(stage) => stage.view(),
            Session::Busy(stage) => stage.view(),
            Session::Ended(stage) => stage.view(),
            Session::Closing(stage) => stage.view(),
            Session::Closed(stage) => stage.view(),
        }
    }
}

impl Session {
    /// A session with these settings, before anything is asked.
    pub fn new(settings: Settings) -> Result<Session, Refusal>
        ensures { new_seen result ≡ new_for (wished settings) }
    {
        Ok(Session::Unwoken(Unwoken::new(settings)?))
    }

    /// Copies the answer gathered.
    pub fn fetch<'a>(&self, out: &mut [u8]) -> Answer<'a>
        ensures { Does (settings_of self.now) (session_seen self.now) fetches (after_call self.now result out.new) out.old out.new }
    {
        // A call for the type of each stage: with one call of a `&dyn Fetch` the proof didn't close.
        let len = match self {
            Session::Unwoken(stage) => stage.fetch(out),
            Session::Asking(stage) => stage.fetch(out),
            Session::Woken(stage) => stage.fetch(out),
            Session::Failed(stage) => stage.fetch(out),
            Session::Idle(stage) => stage.fetch(out),
            Session::Busy(stage) => stage.fetch(out),
            Session::Ended(stage) => stage.fetch(out),
            Session::Closing(stage) => stage.fetch(out),
            Session::Closed(_) => Err(Refusal::Stage),
        }?;
        Ok(Outcome::Fetched(len))
    }

    /// What the reader holds of the card; none where no card was woken.
    pub fn link(&self) -> Option<Link>
        ensures { link_held result ≡ (session_seen self.now).link }
    {
        self.view().link
    }

    /// The code of the divisor in use from the card; 0 where no card was woken.
    pub fn dsi(&self) -> u8
        ensures { result ≡ (session_seen self.now).link.dsi }
    {
        self.link().map_or(0, Link::dsi)
    }

    /// The code of the divisor in use to the card; 0 where no card was woken.
    pub fn dri(&self) -> u8
        ensures { result ≡ (session_seen self.now).link.dri }
    {
        self.link().map_or(0, Link::dri)
    }
}
