//! The metre counter: a count of metres that draws take from.
ghost use Rattle.std.specs.Prelude.{◌≡◌};
ghost use Rattle.applications.specs.Bounds.{keeps_doing};
ghost use Rattle.applications.specs.Metre.{metre, counting, remaining, draw_status, done, request_of};
ghost use Rattle.applications.specs.MetreBounds.{metre_bounded};

use crate::answer::put_answer;
use crate::application::{Application, LONGEST_ANSWER, Reply};
use crate::status::StatusWord;
use request::Request;

mod request;

/// The multiplier of the wait before a draw's answer.
const DRAW_MULTIPLIER: u8 = 2;

#[derive(Debug, PartialEq, Eq, Drop)]
pub struct Metre {
    count: u32,
}

impl Metre {
    /// A counter with this many metres to draw.
    pub fn new(count: u32) -> Metre
        ensures { result ≡ counting count }
    {
        Metre { count }
    }

    /// The metres that are left.
    pub fn count(&self) -> u32
        ensures { result ≡ self.now.count }
    {
        self.count
    }

    /// Takes the metres from the count, unless there are too few.
    fn draw(&mut self, metres: u32) -> StatusWord
        ensures status { result ≡ draw_status self.old.count metres }
        ensures after { self.new ≡ counting (remaining self.old.count metres) }
    {
        if metres > self.count {
            return StatusWord::ConditionsNotSatisfied;
        }
        self.count -= metres;
        StatusWord::Good
    }
}

impl Application for Metre {
    ghost model = { metre };

    ghost keeps = { keeps_doing (λ m c. done m (request_of c)) (λ m c. metre_bounded m (request_of c)) };

    fn respond(&mut self, command: &[u8], answer: &mut [u8; LONGEST_ANSWER]) -> Reply {
        match Request::read(command) {
            Ok(Request::Draw(metres)) => {
                let status = self.draw(metres);
                let count = self.count.to_be_bytes();
                Reply::after_one_wait(DRAW_MULTIPLIER, put_answer(answer, &count, status))
            }
            Ok(Request::Ask) => {
                let count = self.count.to_be_bytes();
                Reply::at_once(put_answer(answer, &count, StatusWord::Good))
            }
            Err(status) => Reply::at_once(put_answer(answer, &[], status)),
        }
    }
}
