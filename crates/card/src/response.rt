//! What a card tells its host of a frame that it heard.

/// The length of the frame that was written for an answer, if there is one, and whether the application was given a command.
#[derive(Clone, Copy, Debug, PartialEq, Eq)]
pub struct Response {
    pub len: Option<usize>,
    pub given: bool,
}
