// Spans and events by hand: the reaches tell the same as a look at every event.
ghost use Rattle.std.specs.Prelude.{◌≡◌};
ghost use Rattle.event_detect.specs.Flag.{is_touched as touched, overlaps};

use crate::touches::{is_touched, reaches};
use event_detect::{Event, Kind};
use std::test::Fail;
use ten_twelve::Span;

// Whether some event, of any kind, overlaps the span.
#[tactic(auto, unfolding(event_detect::specs::Flag::is_touched))]
fn is_any_over(events: &[Event], span: Span) -> bool
    ensures { result ≡ touched events.now span.start span.end }
{
    events.iter().any(|event| overlaps(event, span))
}

// Whether the event and the span have a place in common.
fn overlaps(event: &Event, span: Span) -> bool
    ensures { result ≡ overlaps event.now span.start span.end }
{
    event.start < span.end && span.start < event.end
}

fn event(kind: Kind, start: u64, end: u64) -> Event {
    Event {
        kind,
        start,
        end,
        channel: 0,
        value: 0,
        is_open: false,
    }
}

#[test]
fn spans_and_events(rt: HostRuntime) -> Result<(), Fail> {
    let alloc = rt.alloc();
    let one = [event(Kind::Dip, 252, 336)];
    // Each kind from its first event on, as they are found; the interruption lies in the long dip.
    let kinds = [
        event(Kind::Dip, 600, 900),
        event(Kind::Dip, 1500, 1600),
        event(Kind::Swell, 240, 300),
        event(Kind::Interruption, 620, 800),
    ];
    // A long event, and short ones that begin later and end before it.
    let long = [
        event(Kind::Swell, 400, 410),
        event(Kind::Swell, 500, 510),
        event(Kind::Dip, 100, 2000),
    ];
    // The events, a span, and whether some event touches it.
    let rows: [(&[Event], u64, u64, bool); 22] = [
        (&[], 0, 240, false),
        // Spans that only meet the event, and spans with one place in common with it.
        (&one, 12, 252, false),
        (&one, 12, 253, true),
        (&one, 336, 576, false),
        (&one, 335, 575, true),
        // The event inside the span, the span inside the event, and the same span.
        (&one, 240, 480, true),
        (&one, 260, 300, true),
        (&one, 252, 336, true),
        // The span runs over the beginning, and over the end.
        (&one, 200, 300, true),
        (&one, 300, 400, true),
        // Before all events, between two and after the last one.
        (&kinds, 0, 240, false),
        (&kinds, 0, 241, true),
        (&kinds, 300, 600, false),
        (&kinds, 640, 660, true),
        (&kinds, 800, 850, true),
        (&kinds, 900, 1500, false),
        (&kinds, 1600, 1840, false),
        // Past the short events, and still in the long one.
        (&long, 0, 100, false),
        (&long, 420, 480, true),
        (&long, 510, 750, true),
        (&long, 1999, 2239, true),
        (&long, 2000, 2240, false),
    ];
    for (events, start, end, wanted) in rows {
        let span = Span { start, end };
        let reaches = reaches(alloc, events)?;
        assert_eq!(rt;
            is_touched(&reaches, span),
            wanted,
            "the span from {} to {}",
            start,
            end
        );
        assert_eq!(rt;
            is_any_over(events, span),
            wanted,
            "the span from {} to {}",
            start,
            end
        );
    }
    Ok(())
}
