//! The calls that more than one stage has, each proved once for all of them.
ghost use Rattle.std.specs.Prelude.{◌≡◌, ◌≤◌, false, length};
ghost use Rattle.applications.specs.App.{longest_answer};
ghost use Rattle.exchange.specs.Links.{link_seen};
ghost use Rattle.exchange.specs.Listening.{event_seen};
ghost use Rattle.exchange.specs.Views.{says_seen};
ghost use Rattle.protocol.specs.Reader.{Reader, says as says_in, heard as hears, silent as hears_nothing, is_at, closed};
ghost use Rattle.protocol.specs.Settings.{ReaderSettings};
ghost use Rattle.stages.specs.Calls.{Does, Hears, Reply, Told};
ghost use Rattle.stages.specs.Fetches.{Copies, Fetches};
ghost use Rattle.stages.specs.Results.{heard_by};
ghost use Rattle.stages.specs.Stages.{Shows};

use crate::next::Heard;
use crate::view::View;
use buffers::{ANSWER_ROOM, copy};
use exchange::{Link, Says};
use frames::Refusal;

/// A stage of a session.
pub trait Stage {
    /// what it is set to
    ghost settings: { Self → ReaderSettings };

    /// the reader that it stands for
    ghost reader: { Self → Reader };

    /// What it tells of the card and of the command.
    fn view(&self) -> View
        ensures { Shows result (reader self.now) };

    /// What the reader says of its command.
    fn says(&self) -> Says
        ensures { says_seen result ≡ says_in (reader self.now) }
    {
        self.view().says
    }
}

/// A stage at which the card is awake for certain.
pub trait Linked: Stage {
    /// What the reader holds of the card.
    fn link(&self) -> Link
        ensures { link_seen result ≡ (Self.reader self.now).link };
}

/// Copies an answer to the front of a buffer that holds the longest, and answers its length.
fn fetch_from(answer: &[u8], out: &mut [u8]) -> Result<usize, Refusal>
    requires { length answer.now ≤ longest_answer }
    ensures { Copies answer.now result out.old out.new }
{
    if out.len() < ANSWER_ROOM {
        return Err(Refusal::Buffer);
    }
    copy(out, answer);
    Ok(answer.len())
}

/// A stage that still gives the latest answer.
pub trait Fetch: Stage {
    /// The answer gathered; none before an exchange.
    fn answer(&self) -> &[u8]
        ensures bytes { result.now ≡ (Self.reader self.now).exchange.answer }
        ensures short { length result.now ≤ longest_answer };

    /// Copies the answer gathered.
    fn fetch(&self, out: &mut [u8]) -> Result<usize, Refusal>
        ensures { Fetches (Self.settings self.now) (Self.reader self.now) result out.old out.new }
    {
        fetch_from(self.answer(), out)
    }

    /// the card is not off yet
    ghost open: { (s : Self) → is_at closed (Self.reader s) ≡ false };
}

/// A stage with a frame out, which waits for what comes back.
pub trait Listen: Stage + Sized {
    /// The stages that may follow.
    type Next;

    /// where each of them stands once it has answered
    ghost next: { Self.Next → Reply → Told };

    /// Bytes were heard, or nothing.
    fn listen<'a>(self, bytes: Option<&'a [u8]>, out: &mut [u8]) -> Heard<'a, Self::Next, Self>
        ensures { Hears (Self.settings self) (Self.reader self) (event_seen bytes.entry) (heard_by next Self.settings Self.reader result out.new) out.old out.new };

    /// A frame was heard.
    fn heard<'a>(self, frame: &'a [u8], out: &mut [u8]) -> Heard<'a, Self::Next, Self>
        ensures { Does (Self.settings self) (Self.reader self) (hears frame.now) (heard_by next Self.settings Self.reader result out.new) out.old out.new }
    {
        self.listen(Some(frame), out)
    }

    /// Nothing was heard for as long as the reader had to listen.
    fn silent<'a>(self, out: &mut [u8]) -> Heard<'a, Self::Next, Self>
        ensures { Does (Self.settings self) (Self.reader self) hears_nothing (heard_by next Self.settings Self.reader result out.new) out.old out.new }
    {
        self.listen(None, out)
    }
}
