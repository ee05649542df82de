//! Frames of RATS, ATS and PPS as they are on the air.
#![tactic(auto)]

#[cfg(test)]
mod tests {
    use activation::*;
    use frames::{GREATEST_FRAME, Layer, Refusal};
    use std::test::Fail;

    /// The frame was written to the front of the buffer, and its length answered.
    fn wrote(res: Result<usize, Refusal>, out: &[u8], frame: &[u8]) -> bool {
        res == Ok(frame.len()) && out.starts_with(frame)
    }

    /// The frame is refused as an ATS, by this cause of activation.
    fn fails(frame: &[u8], number: u8, place: usize) -> bool {
        hear_ats(frame, GREATEST_FRAME).is_err_and(|fault| fault.cause()
            == Layer::Activation.cause(number, place))
    }

    #[test]
    fn rats(rt: HostRuntime) {
        let mut out = [0; GREATEST_FRAME];
        let result = write_rats(Rats { fsdi: 5, cid: 0 }, &mut out);
        assert!(rt; wrote(result, &out, &[0xE0, 0x50, 0xBC, 0xA5]));
        let result = write_rats(Rats { fsdi: 8, cid: 0 }, &mut out);
        assert!(rt; wrote(result, &out, &[0xE0, 0x80, 0x31, 0x73]));
        assert!(rt; write_rats(Rats { fsdi: 8, cid: 15 }, &mut out).is_err());
        assert!(rt; rats_of(&[0xE0, 0x8E]).is_some());
        assert!(rt; rats_of(&[0xE0, 0x90]).is_none());
        assert!(rt; rats_of(&[0xE0, 0x8F]).is_none());
    }

    #[test]
    fn pps(rt: HostRuntime) {
        let mut out = [0; GREATEST_FRAME];
        let chosen = Pps {
            cid: 7,
            dsi: 1,
            dri: 1,
        };
        let result = write_pps(chosen, &mut out);
        assert!(rt; wrote(result, &out, &[0xD7, 0x11, 0x05, 0xFA, 0x7D]));
        let result = write_pps_answer(7, &mut out);
        assert!(rt; wrote(result, &out, &[0xD7, 0xCC, 0xF3]));
        assert!(rt; hear_pps_answer(&[0xD7, 0xCC, 0xF3], 16, 7).is_ok());
        assert!(rt; hear_pps_answer(&[0xD7, 0xCC, 0xF3], 16, 0).is_err());
        assert!(rt; pps_of(&[0xD7, 0x11, 0x05], 7).is_some());
        assert!(rt; pps_of(&[0xD7, 0x11, 0x05], 0).is_none());
    }

    #[test]
    fn rates(rt: HostRuntime) {
        assert!(rt; offered(0x00, 0, 0));
        assert!(rt; !offered(0x00, 1, 0));
        assert!(rt; offered(0x13, 1, 2));
        assert!(rt; !offered(0x93, 1, 2));
        assert!(rt; offered(0xB3, 2, 2));
        assert!(rt; !offered(0x77, 4, 4));
    }

    #[test]
    fn ats(rt: HostRuntime) -> Result<(), Fail> {
        let mut out = [0; GREATEST_FRAME];
        let said = Ats {
            fsci: 5,
            ta: 0x80,
            fwi: 7,
            sfgi: 1,
            tc: 0x02,
            historical: &[0x80],
        };
        let result = write_ats(said, &mut out);
        let frame = [0x06, 0x75, 0x80, 0x71, 0x02, 0x80, 0x3C, 0x5C];
        assert!(rt; wrote(result, &out, &frame));
        let Ok(a) = hear_ats(&frame, 16) else {
            return Err(Fail::new("a good ATS is refused"));
        };
        assert_eq!(rt; a, said);
        Ok(())
    }

    #[test]
    fn ats_refused(rt: HostRuntime) {
        assert!(rt; fails(&[0x05, 0x78, 0x00, 0xF0, 0x02, 0x85, 0xC6], 28, 4));
        assert!(rt; fails(&[0x00, 0x79, 0x08, 0x03, 0x00, 0x4E, 0xE2, 0xD2], 27, 1));
        assert!(rt; size_of_code(8) == Some(GREATEST_FRAME));
        assert!(rt; size_of_code(9).is_none());
    }
}
