// The samples of a channel.
ghost use Rattle.std.specs.Prelude.{◌≡◌, ◌+◌, ◌<◌, ◌≤◌, ◌++◌, IfOk, OnOk};
ghost use Rattle.pq_generate.specs.Cycles.{count_in_cycle, sampled};
ghost use Rattle.pq_generate.specs.MeasuredRecording.{sample_of_count, samples_on};
ghost use Rattle.pq_words.specs.Magnitude.{IsWithin};

use crate::counts::{SINE, channel_count};
use crate::disturbance::{CYCLES_OF_INDEX, DISTURBANCES, Disturbance, next_number};
use crate::records::CYCLES;
use std::alloc::{AllocError, Global};

/// How many samples each channel has.
pub const SAMPLES: u64 = 722_400;

const MICROVOLTS_OF_COUNT: i64 = 32_500;

// The samples of a channel: memory is taken once.
pub(crate) fn channel_samples(
    alloc: Global,
    seed: u64,
    channel: u32,
) -> Result<Vec<i64>, AllocError>
    ensures { IfOk result (λ samples. samples.items ≡ samples_on seed channel) }
{
    let mut samples = Vec::with_capacity(alloc, SAMPLES as usize)?;
    let mut number = seed;
    for index in 0..DISTURBANCES {
        number = next_number(number);
        let disturbance = Disturbance::new(index, number);
        let start = CYCLES_OF_INDEX * index;
        push_cycles(
            Some(disturbance),
            channel,
            start,
            start + CYCLES_OF_INDEX,
            &mut samples,
        )?;
    }
    push_cycles(
        None,
        channel,
        CYCLES_OF_INDEX * DISTURBANCES,
        CYCLES,
        &mut samples,
    )?;
    Ok(samples)
}

// The samples of the cycles from one to another, which is not included.
fn push_cycles(
    disturbance: Option<Disturbance>,
    channel: u32,
    start: u32,
    end: u32,
    samples: &mut Vec<i64>,
) -> Result<(), AllocError>
    requires { start ≤ end }
    ensures { OnOk result
        (samples.new.items ≡ samples.old.items ++ sampled disturbance channel start end) }
{
    for cycle in start..end {
        push_cycle(disturbance, channel, cycle, samples)?;
    }
    Ok(())
}

// The samples of a cycle.
fn push_cycle(
    disturbance: Option<Disturbance>,
    channel: u32,
    cycle: u32,
    samples: &mut Vec<i64>,
) -> Result<(), AllocError>
    ensures { OnOk result
        (samples.new.items ≡ samples.old.items ++ sampled disturbance channel cycle (cycle + 1)) }
{
    for count in SINE.iter() {
        samples.push(sample(disturbance, channel, cycle, *count))?;
    }
    Ok(())
}

// The sample of a count of the sine on a channel in a cycle, where one disturbance may lie.
fn sample(disturbance: Option<Disturbance>, channel: u32, cycle: u32, count: i16) -> i64
    requires { IsWithin 10000 count }
    ensures { result ≡ sample_of_count (count_in_cycle disturbance cycle count channel) }
{
    MICROVOLTS_OF_COUNT * i64::from(channel_count(disturbance, channel, cycle, count))
}
