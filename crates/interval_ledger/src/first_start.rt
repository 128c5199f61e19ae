// Which channel's window is the next to be merged.
ghost use Rattle.std.specs.Prelude.{◌≡◌, ◌≤◌, length, take, IfSome, IfNone};
ghost use Rattle.interval_ledger.specs.Channel.{first_starts};
ghost use Rattle.interval_ledger.specs.Earliest.{IsFirstLeast, NoneBelow};

use crate::channel::Channel;
use crate::roots::SLOTS;

/// Where the first window left of each channel begins, by position, and 0 past the channels. A channel of
/// which none is left is at the greatest number.
pub(crate) fn first_starts(channels: &[Channel]) -> [u64; SLOTS]
    requires { length channels.now ≤ 16 }
    ensures { take (length channels.now) result ≡ first_starts channels.now }
{
    let mut starts = [0; SLOTS];
    for (position, channel) in channels.iter().enumerate() {
        starts[position] = channel.first_start();
    }
    starts
}

/// The first of the channels whose first windows left begin first, if these begin before a place.
pub(crate) fn earliest(starts: &[u64], until: u64) -> Option<usize>
    ensures value { IfSome result (λ c. IsFirstLeast starts.now until c) }
    ensures none { IfNone result (NoneBelow starts.now until) }
{
    let mut found: Option<usize> = None;
    let mut least = until;
    for (k, start) in starts.iter().enumerate() {
        if *start < least {
            least = *start;
            found = Some(k);
        }
    }
    found
}
