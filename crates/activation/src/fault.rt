//! Why what was heard is no ATS, or no response to a PPS.
ghost use Rattle.std.specs.Prelude.{◌≡◌};
ghost use Rattle.frames.specs.Faults.{cause_seen};
ghost use Rattle.activation.specs.Faults.{activation_cause};
ghost use Rattle.activation.specs.declared.fault.ActivationFault.TheVariants.{Frame as frame_fault};

use frames::{Cause, FrameFault, Layer};

#[derive(Clone, Copy, Debug, PartialEq, Eq)]
pub enum ActivationFault {
    /// it is no frame
    Frame(FrameFault),
    /// it is no response to the PPS
    Response,
    /// TL is 0, above what the reader's frame holds, unlike the bytes heard, or short of what T0 announces
    LengthByte,
    /// a reserved value in the byte at this place, TL being 1
    Reserved { place: usize },
}

impl ActivationFault {
    pub fn cause(self) -> Cause
        ensures { cause_seen result ≡ activation_cause self }
    {
        match self {
            ActivationFault::Frame(fault) => fault.cause(),
            ActivationFault::Response => Layer::Activation.cause(24, 1),
            ActivationFault::LengthByte => Layer::Activation.cause(27, 1),
            ActivationFault::Reserved { place } => Layer::Activation.cause(28, place),
        }
    }
}

impl From<FrameFault> for ActivationFault {
    ghost from_gives = { λ fault r. r ≡ frame_fault fault };

    fn from(fault: FrameFault) -> ActivationFault {
        ActivationFault::Frame(fault)
    }
}
