ghost use Rattle.std.specs.Prelude.{◌≡◌, ◌+◌, ◌<◌};

use crate::*;
use std::test::Fail;

#[test]
fn runs_over_a_list(rt: HostRuntime) -> Result<(), Fail> {
    let starts: [u64; 2] = [0, 24];
    let over_front = chop(rt.alloc(), &starts, 10, 49).ok().ok_or("refused")?;
    let expected: [(u64, u64); 5] = [(0, 10), (10, 20), (20, 30), (24, 34), (34, 44)];
    assert_eq!(rt; over_front.len(), expected.len());
    for (run, (start, end)) in over_front.iter().zip(expected) {
        assert!(rt; *run == Span { start, end });
    }
    let none: [u64; 0] = [];
    assert!(rt;
        chop(rt.alloc(), &none, 12, 100)
            .ok()
            .ok_or("refused")?
            .is_empty()
    );
    Ok(())
}

fn span(start: u64) -> Span
    requires { start < 100 }
    ensures { result ≡ record { start = start; end = start + 10 } }
{
    Span {
        start,
        end: start + 10,
    }
}

#[test]
fn run_over_a_front(rt: HostRuntime) -> Result<(), Fail> {
    let mut chopper = Chopper::new(2);
    let begun = chopper.push(true, span(0));
    let whole = chopper.push(false, span(10));
    let at_front = chopper.push(false, span(20));
    let over_front = chopper.push(true, span(25));
    let behind = chopper.push(false, span(35));
    assert!(rt; begun.is_none());
    assert!(rt; whole == Some(Span { start: 0, end: 20 }));
    assert!(rt; at_front.is_none());
    assert!(rt; over_front == Some(Span { start: 20, end: 35 }));
    assert!(rt; behind == Some(Span { start: 25, end: 45 }));
    Ok(())
}
