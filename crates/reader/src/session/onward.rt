//! From one stage to the next.
ghost use Rattle.std.specs.Prelude.{◌≡◌, IfOk, IfErr, MatchResult};
ghost use Rattle.exchange.specs.Listening.{event_seen};
ghost use Rattle.frames.specs.declared.refusal.Refusal.TheVariants.{Stage};
ghost use Rattle.protocol.specs.Reader.{close as closes};
ghost use Rattle.stages.specs.Calls.{Does, Hears, Reply};
ghost use Rattle.stages.specs.Results.{at_rats, at_block, at_deselect};
ghost use Rattle.reader.specs.Sessions.{at_session, after_call, IsAt};
ghost use Rattle.reader.specs.declared.session.Session.{Session};

use super::{Answer, Session};
use frames::Refusal;
use stages::{AfterBlock, AfterDeselect, AfterRats, Close, Listen, Outcome, Unwoken};
use std::mem;

impl From<AfterRats> for Session {
    ghost from_gives = { λ next s. (p : Reply) → at_rats next p ≡ at_session s p };

    fn from(next: AfterRats) -> Session {
        match next {
            AfterRats::Asking(stage) => Session::Asking(stage),
            AfterRats::Woken(stage) => Session::Woken(stage),
            AfterRats::Failed(stage) => Session::Failed(stage),
        }
    }
}

impl From<AfterBlock> for Session {
    ghost from_gives = { λ next s. (p : Reply) → at_block next p ≡ at_session s p };

    fn from(next: AfterBlock) -> Session {
        match next {
            AfterBlock::Busy(stage) => Session::Busy(stage),
            AfterBlock::Idle(stage) => Session::Idle(stage),
            AfterBlock::Ended(stage) => Session::Ended(stage),
        }
    }
}

impl From<AfterDeselect> for Session {
    ghost from_gives = { λ next s. (p : Reply) → at_deselect next p ≡ at_session s p };

    fn from(next: AfterDeselect) -> Session {
        match next {
            AfterDeselect::Closing(stage) => Session::Closing(stage),
            AfterDeselect::Closed(stage) => Session::Closed(stage),
        }
    }
}

impl Session {
    /// Takes the session out for a step, and leaves a blank one in its place.
    pub(super) fn take(&mut self) -> Session
        ensures { result ≡ self.old }
    {
        mem::replace(self, Session::Unwoken(Unwoken::blank()))
    }

    /// Puts back what a stage's call leaves: the next stage, or at a refusal the same one.
    pub(super) fn settle<N, S, A, F: FnOnce(N) -> Session, G: FnOnce(S) -> Session>(
        &mut self,
        done: Result<(N, A), (S, Refusal)>,
        next: F,
        same: G,
    ) -> Result<A, Refusal>
        requires goes_on { IfOk done (λ p. F.pre next p.0) }
        requires stays { IfErr done (λ p. G.pre same p.0) }
        ensures { MatchResult done (λ p. F.post next p.0 self.new × (result ≡ Ok p.1)) (λ p. G.post same p.0 self.new × (result ≡ Err p.1)) }
    {
        match done {
            Ok((stage, told)) => {
                *self = next(stage);
                Ok(told)
            }
            Err((stage, why)) => {
                *self = same(stage);
                Err(why)
            }
        }
    }

    /// The session is at a stage that listens.
    pub(super) fn hear<'a, S: Listen, G: FnOnce(S) -> Session>(
        &mut self,
        stage: S,
        same: G,
        bytes: Option<&'a [u8]>,
        out: &mut [u8],
    ) -> Answer<'a>
    where
        Session: From<S::Next>,
        requires callable { (s : S) → G.pre same s }
        requires stays { (s : S) (x : Session) → G.post same s x → IsAt S.settings S.reader s x }
        requires goes_on { (n : S.Next) (x : Session) → ⟦<Session as From<S::Next>>⟧.from_gives n x → (p : Reply) → S.next n p ≡ at_session x p }
        ensures { Hears (S.settings stage) (S.reader stage) (event_seen bytes.entry) (after_call self.new result out.new) out.old out.new }
    {
        self.settle(stage.listen(bytes, out), Session::from, same)
    }

    /// The session is at a stage that takes close.
    pub(super) fn shut<'a, S: Close, G: FnOnce(S) -> Session>(
        &mut self,
        stage: S,
        same: G,
        out: &mut [u8],
    ) -> Answer<'a>
        requires callable { (s : S) → G.pre same s }
        requires stays { (s : S) (x : Session) → G.post same s x → IsAt S.settings S.reader s x }
        ensures { Does (S.settings stage) (S.reader stage) closes (after_call self.new result out.new) out.old out.new }
    {
        let sent = self.settle(stage.close(out), Session::Closing, same)?;
        Ok(Outcome::Wrote(sent))
    }

    /// Puts back a session at whose stage the call is refused.
    pub(super) fn refuse<A>(&mut self, session: Session) -> Result<A, Refusal>
        ensures same { self.new ≡ session }
        ensures stage { result ≡ Err Stage }
    {
        *self = session;
        Err(Refusal::Stage)
    }
}
