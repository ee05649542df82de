//! The laws of the activation formats, for the layers above. Each function's contract is the theorem; it does nothing.
ghost use Rattle.activation.specs.Examples.{Waiting15Fails, Waiting15FrameFails};
ghost use Rattle.activation.specs.Laws.{ReadsRats, ReadsOnlyRats, HearsRats};
ghost use Rattle.activation.specs.Laws.{ReadsAts, GoodIsValid, GoodIsWhole, HearsAts};
ghost use Rattle.activation.specs.Laws.{ReadsPps, ReadsOnlyPps, HearsPps};
ghost use Rattle.activation.specs.Laws.{ReadsPpsAnswer, TakesPpsAnswer, HearsPpsAnswer};
ghost use Rattle.activation.specs.Written.{WritesRats, WritesAts, WritesPps, WritesPpsAnswer};

/// A RATS is read as it was written, and nothing else is read as it.
pub fn rats_is_read()
    ensures read { ReadsRats }
    ensures only { ReadsOnlyRats }
    ensures heard { HearsRats }
{}

/// An ATS is read as it was written, and one that is read has no reserved values and is whole.
pub fn ats_is_read()
    ensures read { ReadsAts }
    ensures valid { GoodIsValid }
    ensures whole { GoodIsWhole }
    ensures heard { HearsAts }
{}

/// A PPS is read as it was written, and nothing else is read as it.
pub fn pps_is_read()
    ensures read { ReadsPps }
    ensures only { ReadsOnlyPps }
    ensures heard { HearsPps }
{}

/// The response to a PPS is taken for what it is, and nothing else is.
pub fn pps_answer_is_read()
    ensures read { TakesPpsAnswer }
    ensures only { ReadsPpsAnswer }
    ensures heard { HearsPpsAnswer }
{}

/// What is in range is written.
pub fn formats_are_written()
    ensures rats { WritesRats }
    ensures ats { WritesAts }
    ensures pps { WritesPps }
    ensures answer { WritesPpsAnswer }
{}

/// The ATS 05 78 00 F0 02 has a reserved value at place 4.
pub fn waiting_time_15_fails()
    ensures body { Waiting15Fails }
    ensures frame { Waiting15FrameFails }
{}
