//! Examples of the keys: each kind with its edges, what is refused, and keys in rows.
#![tactic(auto)]

#[cfg(test)]
mod tests {
    use keys::key::{Key, WrongLength};
    use keys::lot::Lot;
    use keys::moment::Moment;
    use keys::name::Name;
    use keys::rows::rising;
    use keys::text::Text;
    use std::cmp::Ordering;
    use std::test::Fail;

    #[derive(Clone, Copy, Debug)]
    struct NoName;

    fn name(characters: &[u8]) -> Result<Name, NoName> {
        Name::new(characters).ok_or(NoName)
    }

    #[test]
    fn lots_stand_in_seven_bytes(rt: HostRuntime) -> Result<(), Fail> {
        let mut out = [0; 7];
        Lot::new(2026, 3, 17).write(&mut out)?;
        assert_eq!(rt; out, [0x07, 0xea, 0x03, 0x00, 0x00, 0x00, 0x11]);
        assert_eq!(rt; Lot::read(&out), Some(Lot::new(2026, 3, 17)));
        Lot::new(65_535, 255, 4_294_967_295).write(&mut out)?;
        assert_eq!(rt; out, [0xff; 7]);
        assert_eq!(rt; Lot::read(&out), Some(Lot::new(65_535, 255, 4_294_967_295)));
        assert_eq!(rt; Lot::read(&[0; 6]), None);
        assert_eq!(rt; Lot::read(&[0; 8]), None);
        Ok(())
    }

    #[test]
    fn lots_go_by_year_then_press_then_number(rt: HostRuntime) {
        let lot = Lot::new(2026, 3, 17);
        assert!(rt; Lot::new(2025, 255, 99) < lot);
        assert!(rt; Lot::new(2026, 2, 99) < lot);
        assert!(rt; Lot::new(2026, 3, 16) < lot);
        assert!(rt; !(lot < lot));
        assert_eq!(rt; lot.cmp(&lot), Ordering::Equal);
        assert_eq!(rt; lot.cmp(&Lot::new(2026, 3, 18)), Ordering::Less);
        assert_eq!(rt; lot.cmp(&Lot::new(2026, 2, 18)), Ordering::Greater);
    }

    #[test]
    fn moments_stand_in_eight_bytes(rt: HostRuntime) -> Result<(), Fail> {
        let mut out = [0; 8];
        Moment::new(-1).write(&mut out)?;
        assert_eq!(rt; out, [0xff; 8]);
        Moment::new(258).write(&mut out)?;
        assert_eq!(rt; out, [0, 0, 0, 0, 0, 0, 1, 2]);
        Moment::new(i64::MIN).write(&mut out)?;
        assert_eq!(rt; out, [0x80, 0, 0, 0, 0, 0, 0, 0]);
        assert_eq!(rt; Moment::read(&out), Some(Moment::new(i64::MIN)));
        Moment::new(i64::MAX).write(&mut out)?;
        assert_eq!(rt; Moment::read(&out), Some(Moment::new(i64::MAX)));
        assert_eq!(rt; Moment::read(&[0; 7]), None);
        Ok(())
    }

    #[test]
    fn moments_go_as_numbers(rt: HostRuntime) {
        assert!(rt; Moment::new(-1) < Moment::new(0));
        assert!(rt; Moment::new(i64::MIN) < Moment::new(i64::MAX));
        assert!(rt; !(Moment::new(0) < Moment::new(-1)));
        assert_eq!(rt; Moment::new(0).cmp(&Moment::new(0)), Ordering::Equal);
    }

    #[test]
    fn names_stand_in_eight_bytes(rt: HostRuntime) -> Result<(), Fail> {
        let mut out = [0xff; 8];
        let oak = name(b"Red oak")?;
        oak.write(&mut out)?;
        assert_eq!(rt; out, *b"Red oak\0");
        assert_eq!(rt; Name::read(&out), Some(oak));
        assert!(rt; Name::read(b"Sycamore").is_some());
        assert!(rt; Name::new(b"Sycamores").is_none());
        assert!(rt; Name::new(b"").is_none());
        assert!(rt; Name::read(&[0; 8]).is_none());
        assert!(rt; Name::read(b"Red\0oak\0").is_none());
        assert!(rt; Name::read(b"Red oak\x7f").is_none());
        assert!(rt; Name::read(b"Elm\0\0\0\0").is_none());
        Ok(())
    }

    #[test]
    fn names_go_byte_by_byte(rt: HostRuntime) -> Result<(), Fail> {
        let ash = name(b"Ash")?;
        let ashes = name(b"Ashes")?;
        let elm = name(b"Elm")?;
        assert!(rt; ash < ashes);
        assert!(rt; ashes < elm);
        assert!(rt; !(elm < ash));
        assert_eq!(rt; elm.cmp(&elm), Ordering::Equal);
        Ok(())
    }

    #[test]
    fn a_buffer_of_another_length_stays(rt: HostRuntime) {
        let mut short = [7; 6];
        assert_eq!(rt; Lot::new(1, 2, 3).write(&mut short), Err(WrongLength));
        assert_eq!(rt; short, [7; 6]);
        let mut long = [7; 9];
        assert_eq!(rt; Moment::new(1).write(&mut long), Err(WrongLength));
        assert_eq!(rt; long, [7; 9]);
    }

    #[test]
    fn widths_and_codes(rt: HostRuntime) {
        assert_eq!(rt; (Lot::WIDTH, Lot::CODE), (7, 1));
        assert_eq!(rt; (Moment::WIDTH, Moment::CODE), (8, 2));
        assert_eq!(rt; (Name::key_width(), Name::key_code()), (8, 3));
    }

    #[test]
    fn lots_as_text(rt: HostRuntime) -> Result<(), Fail> {
        let lot = Lot::new(2026, 3, 17);
        let text = format!(in rt.alloc(); "{lot}")?;
        assert_eq!(rt; text.as_str(), "2026-3-17");
        assert_eq!(rt; Lot::parse(text.as_bytes()), Some(lot));
        assert_eq!(rt;
            Lot::parse(b"65535-255-4294967295"),
            Some(Lot::new(65_535, 255, 4_294_967_295))
        );
        assert_eq!(rt; Lot::parse(b"02026-03-017"), Some(lot));
        assert_eq!(rt; Lot::parse(b"65536-3-17"), None);
        assert_eq!(rt; Lot::parse(b"2026-256-17"), None);
        assert_eq!(rt; Lot::parse(b"2026-3-4294967296"), None);
        assert_eq!(rt; Lot::parse(b"2026-3"), None);
        assert_eq!(rt; Lot::parse(b"2026--17"), None);
        assert_eq!(rt; Lot::parse(b"2026-3-17-1"), None);
        assert_eq!(rt; Lot::parse(b"2026-+3-17"), None);
        Ok(())
    }

    #[test]
    fn moments_as_text(rt: HostRuntime) -> Result<(), Fail> {
        let lowest = Moment::new(i64::MIN);
        let text = format!(in rt.alloc(); "{lowest}")?;
        assert_eq!(rt; text.as_str(), "-9223372036854775808");
        assert_eq!(rt; Moment::parse(text.as_bytes()), Some(lowest));
        assert_eq!(rt;
            Moment::parse(b"9223372036854775807"),
            Some(Moment::new(i64::MAX))
        );
        assert_eq!(rt; Moment::parse(b"-0"), Some(Moment::new(0)));
        assert_eq!(rt; Moment::parse(b"9223372036854775808"), None);
        assert_eq!(rt; Moment::parse(b"-9223372036854775809"), None);
        assert_eq!(rt; Moment::parse(b"99999999999999999999999"), None);
        assert_eq!(rt; Moment::parse(b"+1"), None);
        assert_eq!(rt; Moment::parse(b"--1"), None);
        assert_eq!(rt; Moment::parse(b"-"), None);
        assert_eq!(rt; Moment::parse(b""), None);
        Ok(())
    }

    #[test]
    fn names_as_text(rt: HostRuntime) -> Result<(), Fail> {
        let oak = name(b"50% oak~")?;
        let text = format!(in rt.alloc(); "{oak}")?;
        assert_eq!(rt; text.as_str(), "50%25%20oak~");
        assert_eq!(rt; Name::parse(text.as_bytes()), Some(oak));
        assert_eq!(rt; Name::parse(b"%41sh"), Name::new(b"Ash"));
        assert_eq!(rt; Name::parse(b"%7e%7E"), Name::new(b"~~"));
        assert_eq!(rt;
            Name::parse(b"%53%79%63%61%6d%6F%72%65"),
            Name::new(b"Sycamore")
        );
        assert_eq!(rt; Name::parse(b"Sycamores"), None);
        assert_eq!(rt; Name::parse(b""), None);
        assert_eq!(rt; Name::parse(b"Red oak"), None);
        assert_eq!(rt; Name::parse(b"Ash%00"), None);
        assert_eq!(rt; Name::parse(b"Ash%7f"), None);
        assert_eq!(rt; Name::parse(b"Ash%2"), None);
        assert_eq!(rt; Name::parse(b"Ash%2g"), None);
        Ok(())
    }

    #[test]
    fn keys_rise_in_rows(rt: HostRuntime) {
        let rows = [
            0x07, 0xea, 3, 0, 0, 0, 17, 0xaa, 0xaa, 0xaa, 0xaa, // 2026-3-17
            0x07, 0xea, 3, 0, 0, 0, 18, 0xbb, 0xbb, 0xbb, 0xbb, // 2026-3-18
            0x07, 0xeb, 1, 0, 0, 0, 1, // 2027-1-1, with no record
        ];
        assert!(rt; rising::<Lot>(&rows, 11, 0));
        assert!(rt; rising::<Lot>(&rows, 11, 1));
        assert!(rt; rising::<Lot>(&rows, 11, 3));
        assert!(rt; !rising::<Lot>(&rows, 11, 4));
        assert!(rt; !rising::<Lot>(&rows, 0, 2), "the same key twice");
        assert!(rt; !rising::<Lot>(&rows, usize::MAX, 3));
        assert!(rt; !rising::<Lot>(&[], 11, 1));
        assert!(rt; rising::<Name>(b"Ash\0\0\0\0\0Elm\0\0\0\0\0", 8, 2));
        assert!(rt; !rising::<Name>(b"Elm\0\0\0\0\0Ash\0\0\0\0\0", 8, 2));
        assert!(rt; !rising::<Name>(b"Ash\0\0\0\0\0\0\0\0\0\0\0\0\0", 8, 2));
        assert!(rt;
            rising::<Moment>(
                &[
                    0xff, 0xff, 0xff, 0xff, 0xff, 0xff, 0xff, 0xff, 0, 0, 0, 0, 0, 0, 0, 0,
                ],
                8,
                2,
            )
        );
    }
}
