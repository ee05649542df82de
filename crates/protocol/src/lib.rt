//! The protocol of a reader and a card as a model, and what holds of every run of it. The definitions are in specs/: the
//! ends' settings, the reader, the card, the field and runs, the frames of an exchange, and the agreement. The functions
//! here do nothing: the contract of each is a theorem.
#![tactic(auto)]

ghost use Rattle.protocol.specs.Agreement.{AgreementHolds};
ghost use Rattle.protocol.specs.Examples.{Worked};
ghost use Rattle.protocol.specs.Field.{NoiseIsGarbled};

/// After every run of a reader and a card, stopped anywhere, the two agree: on the parameters of an active session, on which
/// commands were given, and on what the reader says of its latest one. The frames written keep within their limits, and an
/// exchange that is driven on, under losses that it can bear, ends done. For any application with states S.
pub fn agreement_holds<S>()
    ensures { AgreementHolds S }
{}

/// Whatever bytes a spoilt frame arrives as: noise closes a card's window for PPS and does nothing else.
pub fn noise_is_garbled<S>()
    ensures { NoiseIsGarbled S }
{}

/// Worked cases: control bytes, an ATS with a reserved value, the cutting of commands into blocks, and two short exchanges.
pub fn examples_hold()
    ensures { Worked }
{}
