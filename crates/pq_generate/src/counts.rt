// The counts of the three channels.
ghost use Rattle.std.specs.Prelude.{◌≡◌};
ghost use Rattle.pq_generate.specs.Cycles.{count_in_cycle};
ghost use Rattle.pq_generate.specs.GeneratedRecording.{on_channels};
ghost use Rattle.pq_words.specs.Magnitude.{IsWithin};

use crate::disturbance::Disturbance;

// A cycle of the sine.
pub(crate) const SINE: [i16; 24] = [
    0, 2588, 5000, 7071, 8660, 9659, 10000, 9659, 8660, 7071, 5000, 2588, 0, -2588, -5000, -7071,
    -8660, -9659, -10000, -9659, -8660, -7071, -5000, -2588,
];

// A count of the sine on each channel in a cycle, where one disturbance may lie.
pub(crate) fn channel_counts(disturbance: Option<Disturbance>, cycle: u32, count: i16) -> [i16; 3]
    requires { IsWithin 10000 count }
    ensures { result ≡ on_channels (count_in_cycle disturbance cycle count) }
{
    [
        channel_count(disturbance, 1, cycle, count),
        channel_count(disturbance, 2, cycle, count),
        channel_count(disturbance, 3, cycle, count),
    ]
}

// The same on one channel.
pub(crate) fn channel_count(
    disturbance: Option<Disturbance>,
    channel: u32,
    cycle: u32,
    count: i16,
) -> i16
    requires { IsWithin 10000 count }
    ensures value { result ≡ count_in_cycle disturbance cycle count channel }
    ensures within { IsWithin 12000 result }
{
    match disturbance {
        Some(disturbance) if disturbance.lies_on(channel, cycle) => disturbance.changed(count),
        _ => count,
    }
}
