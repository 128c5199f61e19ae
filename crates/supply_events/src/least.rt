// Which channel comes next.
ghost use Rattle.supply_events.specs.FirstStart.{IsNext, TakesEarlier};

use crate::queue::Queue;

/// The position of the channel whose next window starts first; of those whose windows start together, the
/// first.
pub fn least(channels: &[Queue<'_>]) -> Option<usize>
    ensures { IsNext channels.now result }
{
    let mut found = None;
    for (position, channel) in channels.iter().enumerate() {
        found = earlier(found, position, channel.start());
    }
    match found {
        Some((position, _)) => Some(position),
        None => None,
    }
}

// The channel at this position, where its next window starts before that of the one found so far.
fn earlier(found: Option<(usize, u64)>, position: usize, start: Option<u64>) -> Option<(usize, u64)>
    ensures { TakesEarlier position found start result }
{
    match (found, start) {
        (Some((_, least)), Some(start)) => {
            if start < least {
                Some((position, start))
            } else {
                found
            }
        }
        (None, Some(start)) => Some((position, start)),
        (_, None) => found,
    }
}
