//! The calls of a session.
ghost use Rattle.std.specs.Prelude.{[]};
ghost use Rattle.exchange.specs.Listening.{event_seen};
ghost use Rattle.protocol.specs.Reader.{ask as asks, start as starts, begin as begins, heard as hears, silent as hears_nothing, give_up as gives_up, close as closes};
ghost use Rattle.stages.specs.Calls.{Does, Hears, Turns};
ghost use Rattle.reader.specs.Sessions.{session_seen, settings_of, after_call};

use super::{Answer, Session};
use stages::{Close, Listen, Outcome};

impl Session {
    /// Writes RATS.
    pub fn ask<'a>(&mut self, out: &mut [u8]) -> Answer<'a>
        ensures { Does (settings_of self.old) (session_seen self.old) asks (after_call self.new result out.new) out.old out.new }
    {
        match self.take() {
            Session::Unwoken(stage) => {
                let sent = self.settle(stage.ask(out), Session::Asking, Session::Unwoken)?;
                Ok(Outcome::Wrote(sent))
            }
            other => self.refuse(other),
        }
    }

    /// Makes a woken session active.
    pub fn start<'a>(&mut self) -> Answer<'a>
        ensures { Turns (settings_of self.old) (session_seen self.old) starts (after_call self.new result []) }
    {
        match self.take() {
            Session::Woken(stage) => {
                *self = Session::Idle(stage.start());
                Ok(Outcome::Active)
            }
            other => self.refuse(other),
        }
    }

    /// Takes a command, and writes its first block.
    pub fn begin<'a>(&mut self, command: &[u8], out: &mut [u8]) -> Answer<'a>
        ensures { Does (settings_of self.old) (session_seen self.old) (begins command.now) (after_call self.new result out.new) out.old out.new }
    {
        match self.take() {
            Session::Idle(stage) => {
                let sent = self.settle(stage.begin(command, out), Session::Busy, Session::Idle)?;
                Ok(Outcome::Wrote(sent))
            }
            other => self.refuse(other),
        }
    }

    /// Bytes were heard, or nothing.
    pub fn listen<'a>(&mut self, bytes: Option<&'a [u8]>, out: &mut [u8]) -> Answer<'a>
        ensures { Hears (settings_of self.old) (session_seen self.old) (event_seen bytes.entry) (after_call self.new result out.new) out.old out.new }
    {
        match self.take() {
            Session::Asking(stage) => self.hear(stage, Session::Asking, bytes, out),
            Session::Busy(stage) => self.hear(stage, Session::Busy, bytes, out),
            Session::Closing(stage) => self.hear(stage, Session::Closing, bytes, out),
            other => self.refuse(other),
        }
    }

    /// A frame was heard.
    pub fn heard<'a>(&mut self, frame: &'a [u8], out: &mut [u8]) -> Answer<'a>
        ensures { Does (settings_of self.old) (session_seen self.old) (hears frame.now) (after_call self.new result out.new) out.old out.new }
    {
        self.listen(Some(frame), out)
    }

    /// Nothing was heard for as long as the reader had to listen.
    pub fn silent<'a>(&mut self, out: &mut [u8]) -> Answer<'a>
        ensures { Does (settings_of self.old) (session_seen self.old) hears_nothing (after_call self.new result out.new) out.old out.new }
    {
        self.listen(None, out)
    }

    /// The host gives an exchange up.
    pub fn give_up<'a>(&mut self) -> Answer<'a>
        ensures { Turns (settings_of self.old) (session_seen self.old) gives_up (after_call self.new result []) }
    {
        match self.take() {
            Session::Busy(stage) => {
                let (stage, report) = stage.give_up();
                *self = Session::Ended(stage);
                Ok(Outcome::Stopped(report))
            }
            other => self.refuse(other),
        }
    }

    /// Writes deselect.
    pub fn close<'a>(&mut self, out: &mut [u8]) -> Answer<'a>
        ensures { Does (settings_of self.old) (session_seen self.old) closes (after_call self.new result out.new) out.old out.new }
    {
        match self.take() {
            Session::Woken(stage) => self.shut(stage, Session::Woken, out),
            Session::Failed(stage) => self.shut(stage, Session::Failed, out),
            Session::Idle(stage) => self.shut(stage, Session::Idle, out),
            Session::Ended(stage) => self.shut(stage, Session::Ended, out),
            other => self.refuse(other),
        }
    }
}
