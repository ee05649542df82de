//! Answers: some bytes, and a status word behind them.
ghost use Rattle.std.specs.Prelude.{◌≡◌, ◌+◌, ◌≤◌, ◌++◌, length};
ghost use Rattle.applications.specs.App.{longest_answer};
ghost use Rattle.buffers.specs.Over.{over};
ghost use Rattle.applications.specs.Status.{word_of};

use crate::application::LONGEST_ANSWER;
use crate::status::StatusWord;
use buffers::put;

/// Puts an answer at the front of `answer`: `bytes` and the status word. Returns how long it is.
pub(crate) fn put_answer(
    answer: &mut [u8; LONGEST_ANSWER],
    bytes: &[u8],
    status: StatusWord,
) -> usize
    requires { length bytes.now + 2 ≤ longest_answer }
    ensures bytes { answer.new ≡ over (bytes.now ++ word_of status) answer.old }
    ensures full { length answer.new ≡ longest_answer }
    ensures len { result ≡ length (bytes.now ++ word_of status) }
{
    put(answer, 0, bytes);
    put(answer, bytes.len(), &status.bytes());
    bytes.len() + 2
}
