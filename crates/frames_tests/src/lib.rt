//! Frames that others have worked out, run.
#![tactic(auto)]

#[cfg(test)]
mod tests {
    use frames::{Agreed, Block, CardNumber, GREATEST_FRAME, read_block, seal, write_block};
    use std::process::Abort;
    use std::test::Fail;

    fn seals_as(rt: &impl Abort, body: &[u8], frame: &[u8]) -> Result<(), Fail> {
        let mut buffer = [0u8; GREATEST_FRAME];
        let Ok(n) = seal(body, &mut buffer) else {
            return Err(Fail::new("refused"));
        };
        assert!(rt; n == frame.len() && n <= GREATEST_FRAME);
        assert_eq!(rt; &buffer[0..n], frame);
        Ok(())
    }

    #[test]
    fn zeros_are_sealed(rt: HostRuntime) -> Result<(), Fail> {
        seals_as(&rt, &[0x00, 0x00], &[0x00, 0x00, 0xA0, 0x1E])
    }

    #[test]
    fn digits_are_sealed(rt: HostRuntime) -> Result<(), Fail> {
        seals_as(&rt, &[0x12, 0x34], &[0x12, 0x34, 0x26, 0xCF])
    }

    /// R(NAK) 0 of card number 1 at power level 1
    #[test]
    fn acknowledgement_comes_back(rt: HostRuntime) -> Result<(), Fail> {
        let mut buffer = [0u8; GREATEST_FRAME];
        let card = Some(CardNumber {
            number: 1,
            power: 1,
        });
        let sent = Block::acknowledging(true, false, card);
        let Ok(n) = write_block(sent, &mut buffer) else {
            return Err(Fail::new("refused"));
        };
        assert!(rt; n == 4);
        assert_eq!(rt; &buffer[0..4], [0xBA, 0x41, 0x33, 0x8A].as_slice());
        assert_eq!(rt; read_block(&buffer[0..4], 16, Agreed::Number(1)), Ok(sent));
        Ok(())
    }
}
