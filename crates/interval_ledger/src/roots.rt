// The values of a basic interval.
ghost use Rattle.std.specs.Prelude.{◌≡◌, ◌≤◌, length, slice_get, take};
ghost use Rattle.std.specs.Option.{option_map_or};
ghost use Rattle.interval_ledger.specs.Posted.{all_roots};

use crate::channel::Channel;

// Room for the values of the most channels.
pub(crate) const SLOTS: usize = 16;

/// What each channel has posted at an index, by position, and 0 past the channels.
pub(crate) fn roots(channels: &[Channel], k: usize) -> [u64; SLOTS]
    requires { length channels.now ≤ 16 }
    ensures { take (length channels.now) result ≡ all_roots channels.now k }
{
    let mut roots = [0; SLOTS];
    for (position, channel) in channels.iter().enumerate() {
        roots[position] = root(channel, k);
    }
    roots
}

// What a channel has posted at an index, or 0.
fn root(channel: &Channel, k: usize) -> u64
    ensures { result ≡ option_map_or (λ v. v.value) (slice_get channel.now.values.items k) 0 }
{
    match channel.value(k) {
        Some(value) => value.value,
        None => 0,
    }
}
