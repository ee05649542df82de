//! An exchange over a link: a command sent in parts, and its answer gathered.
ghost use Rattle.std.specs.Prelude.{◌≡◌, ◌+◌, ◌*◌, ◌<◌, ◌≤◌, IfErr, OnErr, OnOk, is_ok, length};
ghost use Rattle.buffers.specs.Stores.{held};
ghost use Rattle.protocol.specs.Reader.{blank_exchange, begun, is_command, running, say_of, more};
ghost use Rattle.exchange.specs.Links.{link_seen};
ghost use Rattle.exchange.specs.Views.{progress_seen, says_seen, totals_seen};

use super::link::Link;
use super::progress::Progress;
use super::report::{Report, Says, Totals};
use super::turn::Sent;
use buffers::{AnswerStore, COMMAND_ROOM, CommandStore};
use frames::{Cause, Refusal};

mod acknowledged;
mod answered;
mod hearing;
mod running;
mod sending;

pub use running::Running;

/// The latest command over a link, and its answer. The part of the command in the last block begins at `from` and is as
/// long as the link has room, or to the command's end.
#[derive(Drop)]
pub struct Exchange {
    link: Link,
    progress: Progress,
    number: bool,
    command: CommandStore,
    from: usize,
    answer: AnswerStore,
    totals: Totals,
    /// the repeats since the last fresh frame, and the last cause since then
    since: u8,
    why: Option<Cause>,
    /// the multiplier of a wait that still holds: 0 for none, since no wait has it, and an Option would let in a second
    /// 0 that the formula of the waiting time has no meaning for
    stretch: u8,
    /// an R(ACK) of the other number came after the latest writing of the last block
    other: bool,
    /// a wait or an I-block of equal number came after its first writing
    came: bool,
    ghost sends: { (progress_seen progress ≡ running → from < length (held command)) },
    ghost place: { from ≤ 261 },
    ghost fresh: { totals.fresh ≤ 1 + from + length (held answer) },
    ghost repeats: { totals.repeats ≤ 255 * totals.fresh + since },
    ghost waits: { totals.waits ≤ 255 },
}

impl Exchange {
    ghost use Rattle.exchange.specs.Exchanges.{exchange_seen, room_for};
    ghost use Rattle.exchange.specs.Lent.{Starts};
    ghost use Rattle.exchange.specs.Moves.{Begins, beginning};

    /// Before a command.
    pub fn new(link: Link) -> Exchange
        ensures blank { exchange_seen result ≡ blank_exchange }
        ensures link { result.link ≡ link }
    {
        Exchange {
            link,
            progress: Progress::NoCommand,
            number: false,
            command: CommandStore::new(),
            from: 0,
            answer: AnswerStore::new(),
            totals: Totals {
                fresh: 0,
                repeats: 0,
                waits: 0,
            },
            since: 0,
            why: None,
            stretch: 0,
            other: false,
            came: false,
        }
    }

    /// Copies a command of 1 to 261 bytes, and writes its first block to the front of `out`.
    pub fn begin(&mut self, command: &[u8], out: &mut [u8]) -> Result<Sent, Refusal>
        ensures begins { Starts (beginning (link_seen self.old.link) (exchange_seen self.old) command.now (length out.old)) self.new result out.old out.new }
        ensures kept { OnErr result (self.new ≡ self.old) }
    {
        let Some(out) = out.first_chunk_mut() else {
            return Err(Refusal::Buffer);
        };
        self.load(command)?;
        Ok(self.send_part(out))
    }

    /// The same of an exchange that is handed over: its command runs.
    pub fn run(
        mut self,
        command: &[u8],
        out: &mut [u8],
    ) -> Result<(Running, Sent), (Exchange, Refusal)>
        ensures { Begins (beginning (link_seen self.link) (exchange_seen self) command.now (length out.old)) result out.old out.new }
    {
        match self.begin(command, out) {
            Ok(sent) => Ok((Running { exchange: self }, sent)),
            Err(why) => Err((self, why)),
        }
    }

    /// Copies a command of 1 to 261 bytes, and empties the answer: the first block is to go out.
    fn load(&mut self, command: &[u8]) -> Result<(), Refusal>
        ensures taken { is_ok result ≡ is_command command.now }
        ensures ok { OnOk result ((self.new.link ≡ self.old.link) × (exchange_seen self.new ≡ begun (room_for self.old.link) self.old.number command.now)) }
        ensures err { IfErr result (λ why. (why ≡ Refusal.Length) × (self.new ≡ self.old)) }
    {
        if command.is_empty() || command.len() > COMMAND_ROOM {
            return Err(Refusal::Length);
        }
        self.command.clear();
        self.command.append(command).unwrap();
        self.from = 0;
        self.answer.clear();
        self.progress = Progress::Running;
        self.totals = Totals {
            fresh: 1,
            repeats: 0,
            waits: 0,
        };
        self.since = 0;
        self.why = None;
        self.stretch = 0;
        self.other = false;
        self.came = false;
        Ok(())
    }

    /// The link that the exchange goes over.
    pub fn link(&self) -> Link
        ensures { result ≡ self.now.link }
    {
        self.link
    }

    /// What the reader says of its command: the first that fits.
    pub fn says(&self) -> Says
        ensures { says_seen result ≡ say_of (exchange_seen self.now).progress (exchange_seen self.now) }
    {
        match self.progress {
            Progress::NoCommand => Says::Nothing,
            Progress::Running if self.has_more() || self.other => Says::NotTaken,
            Progress::Running if self.came => Says::Taken,
            Progress::Running => Says::Doubt,
            Progress::Finished => Says::Done,
        }
    }

    /// The frames written so far.
    pub fn totals(&self) -> Totals
        ensures { totals_seen result ≡ (exchange_seen self.now).totals }
    {
        self.totals
    }

    /// What there is to be told.
    pub fn report(&self) -> Report
        ensures says { says_seen result.says ≡ say_of (exchange_seen self.now).progress (exchange_seen self.now) }
        ensures totals { totals_seen result.totals ≡ (exchange_seen self.now).totals }
    {
        Report {
            says: self.says(),
            totals: self.totals,
        }
    }

    /// The answer's bytes gathered so far.
    pub fn answer(&self) -> &[u8]
        ensures { result.now ≡ (exchange_seen self.now).answer }
    {
        self.answer.gathered()
    }

    /// There is more of the command behind the part in the last block.
    fn has_more(&self) -> bool
        ensures { result ≡ more (exchange_seen self.now).rest }
    {
        self.command.gathered().len() > self.from + self.link.room()
    }

    /// The answer's first block is in.
    fn has_answer(&self) -> bool
        ensures { result ≡ more (exchange_seen self.now).answer }
    {
        !self.answer.gathered().is_empty()
    }
}
