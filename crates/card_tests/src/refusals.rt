//! Settings out of range, and a buffer that is too small.
use crate::bench::{Way, play_turn, settings};
use applications::Metre;
use card::{Card, CardSettings};
use frames::GREATEST_FRAME;
use std::test::Fail;

/// The settings are refused by 1, and the application comes back.
fn refused(settings: CardSettings) -> bool {
    match Card::new(settings, Metre::new(100)) {
        Ok(_) => false,
        Err((application, refusal)) => application.count() == 100 && refusal.number() == 1,
    }
}

#[test]
fn settings_out_of_range(rt: HostRuntime) {
    let good = settings(true, 0x77);
    assert!(rt; !refused(good));
    assert!(rt; refused(CardSettings { fsci: 9, ..good }));
    assert!(rt; refused(CardSettings { fwi: 15, ..good }));
    assert!(rt; refused(CardSettings { sfgi: 15, ..good }));
    assert!(rt; refused(CardSettings { ta: 0x08, ..good }));
    assert!(rt;
        !refused(CardSettings {
            historical_len: 9,
            ..good
        })
    );
    assert!(rt;
        refused(CardSettings {
            historical_len: 10,
            ..good
        })
    );
}

/// A buffer of 255 bytes is refused by 5, and nothing changes.
#[test]
fn small_buffer(rt: HostRuntime) -> Result<(), Fail> {
    let Ok(mut card) = Card::new(settings(true, 0x00), Metre::new(100)) else {
        return Err(Fail::new("refused"));
    };
    let mut small = [0xee; GREATEST_FRAME - 1];
    let by = match card.hear(&[0xE0, 0x80, 0x31, 0x73], &mut small) {
        Ok(_) => 0,
        Err(refusal) => refusal.number(),
    };
    assert_eq!(rt; by, 5);
    for byte in &small {
        assert_eq!(rt; *byte, 0xee);
    }
    play_turn(
        &rt,
        &mut card,
        Way::Tells,
        b"\xe0\x80",
        b"\x07\x72\x00\x40\x02\x48\x50",
    )
}
