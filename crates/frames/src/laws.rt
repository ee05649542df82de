//! The laws of frames and blocks, for the layers above. Each function's contract is the theorem; it does nothing.
ghost use Rattle.frames.specs.Exactly.{AcceptedExactly, OneFrame, WrittenExactly};
ghost use Rattle.frames.specs.Examples.{Examples};
ghost use Rattle.frames.specs.Laws.{TwoMore, BeginsWithItsBody, OpensToItsBody, OpensIfSealed, ReadsItsFrame, NeverReadsNoise, ReadsOnlyItsFrame, FramesDiffer, SpoiltIsNoise, ZerosAreNoise};

/// What sealing makes opens to what it was made of, and nothing else opens.
pub fn frames_hold()
    ensures long { TwoMore }
    ensures begins { BeginsWithItsBody }
    ensures opens { OpensToItsBody }
    ensures sealed { OpensIfSealed }
    ensures spoilt { SpoiltIsNoise }
    ensures zeros { ZerosAreNoise }
{}

/// The frame of a block that a receiver can take is read as that block, noise never is, and two blocks have two frames.
pub fn blocks_hold()
    ensures reads { ReadsItsFrame }
    ensures only { ReadsOnlyItsFrame }
    ensures noise { NeverReadsNoise }
    ensures differ { FramesDiffer }
{}

/// What is accepted as a block is exactly its frame, each block has one frame, and each block that can be sent is written.
pub fn blocks_are_exact()
    ensures accepted { AcceptedExactly }
    ensures one { OneFrame }
    ensures writes { WrittenExactly }
{}

/// Control bytes worked out: 13, B2, C3, E2 and 06.
pub fn examples_hold()
    ensures { Examples }
{}
