use crate::*;
use std::test::Fail;

const NOON: i64 = 1_709_294_400_000_000_000;

#[test]
fn texts_of_moments(rt: HostRuntime) -> Result<(), Fail> {
    let read: [(&[u8], &[u8], Result<i64, BadMoment>); 10] = [
        (b"01/03/2024", b"12:00:01.000000", Ok(NOON + 1_000_000_000)),
        (b"1/3/2024", b"12:0:0.0008", Ok(NOON + 800_000)),
        (b"29/02/2024", b"0:0:0", Ok(1_709_164_800_000_000_000)),
        (b"31/12/1969", b"23:59:59.999999999", Ok(-1)),
        (b"29/02/2023", b"12:00:00", Err(BadMoment::Date)),
        (b"30/02/2024", b"24:00:00", Err(BadMoment::Date)),
        (b"03/13/2024", b"12:00:00", Err(BadMoment::Date)),
        (b"01/01/2200", b"12:00:00", Err(BadMoment::Date)),
        (b"01/03/2024", b"24:00:00", Err(BadMoment::Time)),
        (b"01/03/2024", b"12:00:60", Err(BadMoment::Time)),
    ];
    for (date, time, expected) in read {
        assert!(rt; read_moment(date, time) == expected);
    }
    let codes: [(&[u8], Option<i32>); 6] = [
        (b"-5h30", Some(-330)),
        (b"+14h59", Some(899)),
        (b"0", Some(0)),
        (b"15", None),
        (b"5h60", None),
        (b"x", None),
    ];
    for (text, expected) in codes {
        assert!(rt; read_code(text) == expected);
    }
    assert_eq!(rt; to_utc(NOON, -330), NOON + 19_800_000_000_000);
    let printed: [(i64, &[u8; 30]); 4] = [
        (NOON + 834_028, b"2024-03-01T12:00:00.000834028Z"),
        (-1, b"1969-12-31T23:59:59.999999999Z"),
        (i64::MIN, b"1677-09-21T00:12:43.145224192Z"),
        (i64::MAX, b"2262-04-11T23:47:16.854775807Z"),
    ];
    for (moment, expected) in printed {
        assert!(rt; print_moment(moment) == *expected);
    }
    Ok(())
}

#[test]
fn times_places_and_ticks(rt: HostRuntime) -> Result<(), Fail> {
    let slow = Clock {
        t0: NOON - 1_000_000_000,
        rate: 1_199_000_000,
    };
    assert_eq!(rt; slow.time_of(1200), NOON + 834_028);
    assert_eq!(rt; slow.place_of(NOON, 721_798), 1199);
    assert_eq!(rt; slow.place_of(NOON + 600_000_000_000, 721_798), 720_599);
    let over_noon = Clock {
        t0: NOON - 495_000_000,
        rate: 1_200_000_000,
    };
    assert_eq!(rt; over_noon.place_of(NOON, 1200), 594);
    let to_the_end = Clock {
        t0: NOON + 9_995_000_000,
        rate: 1_200_000_000,
    };
    let mut ticks = to_the_end.ticks(12_006, 10);
    assert!(rt; ticks.next() == Some(1_709_294_410));
    assert!(rt; ticks.next() == Some(1_709_294_420));
    assert!(rt; ticks.next().is_none());
    assert!(rt; ticks.next().is_none());
    assert_eq!(rt; to_the_end.ticks(12_005, 10).count(), 1);
    let before_1970 = Clock {
        t0: -1_205_000_000_000,
        rate: 1_200_000_000,
    };
    let mut ticks = before_1970.ticks(1_500_000, 600);
    assert!(rt; ticks.next() == Some(-1200));
    Ok(())
}
