//! The yarn record: 128 bytes that are read and written.
ghost use Rattle.std.specs.Prelude.{◌≡◌, ◌+◌, ◌≤◌, length, replicate};

use crate::answer::put_answer;
use crate::application::{Application, LONGEST_ANSWER, Reply};
use crate::status::StatusWord;
use buffers::put;
use request::Request;

mod request;

/// The number of bytes in the record.
pub const RECORD_SIZE: usize = 128;

/// The laws speak of every record, and so each says its length.
#[derive(Debug, PartialEq, Eq, Drop)]
pub struct Yarn {
    bytes: [u8; RECORD_SIZE],
    ghost full: { length bytes ≡ 128 },
}

impl Yarn {
    ghost use Rattle.applications.specs.Yarn.{record_size, written};

    /// A record with these bytes.
    pub fn new(bytes: [u8; RECORD_SIZE]) -> Yarn
        ensures { result.bytes ≡ bytes }
    {
        Yarn { bytes }
    }

    /// A record with this byte at each place.
    pub fn filled(byte: u8) -> Yarn
        ensures { result.bytes ≡ replicate record_size byte }
    {
        Yarn {
            bytes: [byte; RECORD_SIZE],
        }
    }

    /// The record's bytes.
    pub fn bytes(&self) -> &[u8; RECORD_SIZE]
        ensures { result.now ≡ self.now.bytes }
    {
        &self.bytes
    }

    /// Writes bytes into the record, from `offset` on.
    fn write(&mut self, offset: usize, bytes: &[u8])
        requires { offset + length bytes.now ≤ record_size }
        ensures { self.new ≡ written self.old offset bytes.now }
    {
        put(&mut self.bytes, offset, bytes);
    }
}

impl Application for Yarn {
    ghost use Rattle.applications.specs.Yarn.{yarn, done, request_of};
    ghost use Rattle.applications.specs.Bounds.{keeps_doing};
    ghost use Rattle.applications.specs.Records.{yarn_bounded};

    ghost model = { yarn };

    ghost keeps = { keeps_doing (λ y c. done y (request_of c)) (λ y c. yarn_bounded y (request_of c)) };

    fn respond(&mut self, command: &[u8], answer: &mut [u8; LONGEST_ANSWER]) -> Reply {
        match Request::read(command) {
            Ok(Request::Read { offset, len }) => {
                let bytes = &self.bytes[offset..offset + len];
                Reply::at_once(put_answer(answer, bytes, StatusWord::Good))
            }
            Ok(Request::Write { offset, bytes }) => {
                self.write(offset, bytes);
                Reply::at_once(put_answer(answer, &[], StatusWord::Good))
            }
            Err(status) => Reply::at_once(put_answer(answer, &[], status)),
        }
    }
}
