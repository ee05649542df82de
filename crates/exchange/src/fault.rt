//! Why what was heard is of no use to a session: the faults of every layer below.
ghost use Rattle.std.specs.Prelude.{◌≡◌};
ghost use Rattle.frames.specs.Faults.{cause_seen};
ghost use Rattle.exchange.specs.Faults.{session_cause};
ghost use Rattle.exchange.specs.declared.fault.SessionFault.TheVariants.{Frame as frame_fault, Block as block_fault, Activation as activation_fault};

use activation::ActivationFault;
use frames::{BlockFault, Cause, FrameFault};

#[derive(Clone, Copy, Debug, PartialEq, Eq)]
pub enum SessionFault {
    /// it is no frame
    Frame(FrameFault),
    /// it is no block
    Block(BlockFault),
    /// it is no ATS, or no response to a PPS
    Activation(ActivationFault),
}

impl SessionFault {
    pub fn cause(self) -> Cause
        ensures { cause_seen result ≡ session_cause self }
    {
        match self {
            SessionFault::Frame(fault) => fault.cause(),
            SessionFault::Block(fault) => fault.cause(),
            SessionFault::Activation(fault) => fault.cause(),
        }
    }
}

impl From<FrameFault> for SessionFault {
    ghost from_gives = { λ fault r. r ≡ frame_fault fault };

    fn from(fault: FrameFault) -> SessionFault {
        SessionFault::Frame(fault)
    }
}

impl From<BlockFault> for SessionFault {
    ghost from_gives = { λ fault r. r ≡ block_fault fault };

    fn from(fault: BlockFault) -> SessionFault {
        SessionFault::Block(fault)
    }
}

impl From<ActivationFault> for SessionFault {
    ghost from_gives = { λ fault r. r ≡ activation_fault fault };

    fn from(fault: ActivationFault) -> SessionFault {
        SessionFault::Activation(fault)
    }
}
