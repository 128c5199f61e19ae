// Items by hand, out of order and in order.
use crate::{Item, sort_items};
use std::cmp::Ordering;

fn basic(channel: u32, value: u64) -> Item {
    Item::Basic {
        channel,
        start: 264,
        end: 504,
        cycles: 10,
        value,
        flagged: false,
    }
}

fn dip(channel: u32, start: u64, end: u64) -> Item {
    Item::Dip {
        channel,
        start,
        end,
        value: 114902681,
        is_open: false,
    }
}

#[test]
fn items_in_order(rt: HostRuntime) {
    let reading = Item::Frequency {
        tick: 1709294410,
        start: 0,
        end: 504,
        cycles: 499,
        microhertz: 50_000_000,
        flagged: true,
    };
    let interruption = Item::Interruption {
        channel: 1,
        start: 0,
        end: 504,
        value: 0,
        is_open: true,
    };
    let mut items = [
        dip(1, 0, 505),
        interruption,
        dip(1, 264, 504),
        dip(2, 252, 504),
        basic(2, 230),
        basic(2, 229),
        basic(1, 231),
        reading,
        dip(3, 300, 348),
    ];
    // an earlier end, a lower rank, an earlier start, a lower channel, a lower value
    let wanted = [
        dip(3, 300, 348),
        reading,
        basic(1, 231),
        basic(2, 229),
        basic(2, 230),
        dip(2, 252, 504),
        dip(1, 264, 504),
        interruption,
        dip(1, 0, 505),
    ];
    sort_items(&mut items);
    for i in 0..9 {
        assert!(rt; items[i].compare(&wanted[i]) == Ordering::Equal, "at {i}");
    }
    assert_eq!(rt; items[0].end(), 348);
    assert!(rt;
        items[1].tick() == Some(1709294410) && items[1].count() == 499 && items[1].has_mark()
    );
    assert!(rt; items[0].tick().is_none() && items[0].count() == 0 && !items[0].has_mark());
    assert!(rt; basic(1, 230).compare(&basic(1, 231)) == Ordering::Less);
}
