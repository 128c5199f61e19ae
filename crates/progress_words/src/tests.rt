// Two lanes, each with how far it reaches.
ghost use Rattle.std.specs.Prelude.{◌==◌, if◌then◌else◌};

use crate::answer::{Closed, Take};
use crate::out_of_memory::OutOfMemory;
use crate::pass::Words;
use crate::shared::Shared;

#[derive(Drop)]
pub(crate) struct Two {
    pub(crate) first: u64,
    pub(crate) second: u64,
}

impl Shared for Two {
    type Name = u8;

    ghost lanes = { λ _. 2 };

    ghost reach = { λ v k. if k == 0 then v.first else v.second };

    ghost name = { λ _. 7 };

    fn lanes(&self) -> u32 {
        2
    }
}

const TWO: Two = Two {
    first: 5,
    second: 9,
};

#[test]
fn two_lanes_of_words(rt: HostRuntime) -> Result<(), OutOfMemory> {
    let (words, mut lanes, mut reader) = Words::open(rt.alloc(), TWO)?;
    let mut second = lanes.pop().expect(&rt, "two lanes");
    let mut first = lanes.pop().expect(&rt, "two lanes");
    assert_eq!(rt; words.load(&mut reader, 0), 0);
    let Take::Held(two) = words.take_lane(&mut first) else {
        panic!(rt; "the turn was free")
    };
    assert!(rt;
        matches!(words.take_reader(&mut reader), Take::Busy(1)),
        "lane 0 has the turn"
    );
    let two = Two {
        first: two.first + 2,
        second: two.second,
    };
    words.give_lane(&mut first, two);
    words.raise(&mut first, 6);
    assert_eq!(rt; words.load(&mut reader, 0), 6);
    let Take::Held(two) = words.take_reader(&mut reader) else {
        panic!(rt; "the turn was free")
    };
    assert!(rt; two.first >= 6, "the value reaches at least as far");
    assert!(rt;
        matches!(words.take_lane(&mut second), Take::Busy(3)),
        "a reader has the turn"
    );
    words.give_reader(&mut reader, two);
    assert!(rt;
        matches!(
            words.close(),
            Closed::Value(Two {
                first: 7,
                second: 9
            })
        ),
        "the value"
    );
    Ok(())
}

#[test]
fn closed_while_held(rt: HostRuntime) -> Result<(), OutOfMemory> {
    let (words, mut lanes, _reader) = Words::open(rt.alloc(), TWO)?;
    let mut second = lanes.pop().expect(&rt, "two lanes");
    assert!(rt;
        matches!(words.take_lane(&mut second), Take::Held(_)),
        "free"
    );
    assert!(rt; matches!(words.close(), Closed::Held(2)), "lane 1 holds");
    let (words, _lanes, mut reader) = Words::open(rt.alloc(), TWO)?;
    assert!(rt;
        matches!(words.take_reader(&mut reader), Take::Held(_)),
        "free"
    );
    assert!(rt; matches!(words.close(), Closed::Held(3)), "a reader holds");
    Ok(())
}

#[test]
fn stop_after_split(rt: HostRuntime) -> Result<(), OutOfMemory> {
    let (words, mut lanes, mut reader) = Words::open(rt.alloc(), TWO)?;
    let mut lane = lanes.pop().expect(&rt, "two lanes");
    words.raise(&mut lane, 8);
    assert_eq!(rt; words.load(&mut reader, 1), 8);
    assert!(rt; !words.stopped_reader(&mut reader), "no one wrote it");
    let mut other = words.split(&mut reader);
    assert_eq!(rt; words.load(&mut other, 1), 8);
    assert!(rt; !words.stopped_lane(&mut lane), "no one wrote it");
    words.stop(&mut other);
    assert!(rt; words.stopped_reader(&mut reader), "the other wrote it");
    assert!(rt; words.stopped_reader(&mut other), "its own");
    assert!(rt; words.stopped_lane(&mut lane), "a reader wrote it");
    Ok(())
}
