//! What is printed, appended to bytes behind those that are there.
#![tactic(auto)]

#[cfg(test)]
mod tests {
    use exchange::Says;
    use std::test::Fail;

    #[test]
    fn fields(rt: HostRuntime) -> Result<(), Fail> {
        let mut out = Vec::new(rt.alloc());
        text::push_field(&mut out, b"\xff")?;
        text::push_line(&mut out, b"7F")?;
        assert_eq!(rt; out.as_slice(), b"\xff 7F\n".as_slice());
        Ok(())
    }

    #[test]
    fn numbers(rt: HostRuntime) -> Result<(), Fail> {
        let mut out = Vec::new(rt.alloc());
        text::push_number_field(&mut out, 1009)?;
        assert_eq!(rt; out.as_slice(), b"1009 ".as_slice());
        text::push_number(&mut out, 10)?;
        assert_eq!(rt; out.as_slice(), b"1009 10".as_slice());
        Ok(())
    }

    #[test]
    fn bytes(rt: HostRuntime) -> Result<(), Fail> {
        let mut out = Vec::new(rt.alloc());
        text::push_bytes(&mut out, &[])?;
        text::push_bytes(&mut out, b"\x0a\xe7")?;
        assert_eq!(rt; out.as_slice(), b"-0AE7".as_slice());
        Ok(())
    }

    #[test]
    fn bad_lines(rt: HostRuntime) -> Result<(), Fail> {
        let mut out = Vec::new(rt.alloc());
        text::push_bad(&mut out, 12)?;
        assert_eq!(rt; out.as_slice(), b"bad line 12\n".as_slice());
        Ok(())
    }

    #[test]
    fn rows(rt: HostRuntime) -> Result<(), Fail> {
        let mut out = Vec::new(rt.alloc());
        script::push_names(&mut out)?;
        script::push_row(&mut out, b"\xff", 100, &[], b"\x90\x00", Says::Done)?;
        assert_eq!(rt;
            out.as_slice(),
            b"call result frame answer says\n\xff 100 - 9000 done\n".as_slice()
        );
        Ok(())
    }

    #[test]
    fn outputs(rt: HostRuntime) -> Result<(), Fail> {
        let mut out = Vec::new(rt.alloc());
        inspection::push_output(rt.alloc(), &mut out, b"seal -\nread\n")?;
        trial::push_output(rt.alloc(), &mut out, b"fsdi")?;
        assert_eq!(rt;
            out.as_slice(),
            b"seal 3 -\nbad line 2\nbad line 1\n".as_slice()
        );
        Ok(())
    }
}
