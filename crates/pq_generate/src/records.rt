// The records of the dat.
ghost use Rattle.std.specs.Prelude.{◌≡◌, ◌+◌, ◌<◌, ◌≤◌, ◌++◌, IfOk, OnOk};
ghost use Rattle.pq_generate.specs.Cycles.{records_of_cycles};
ghost use Rattle.pq_generate.specs.GeneratedRecording.{dat_text, record_bytes};

use crate::counts::{SINE, channel_counts};
use crate::disturbance::{CYCLES_OF_INDEX, DISTURBANCES, Disturbance, next_number};
use std::alloc::{AllocError, Global};

// How many cycles a recording has.
pub(crate) const CYCLES: u32 = 30_100;

const SAMPLES_OF_CYCLE: u32 = 24;

const BYTES_OF_RECORD: usize = 14;

const BYTES_OF_DAT: usize = 14 * 722_400;

// The bytes of the dat: memory is taken once.
pub(crate) fn dat_bytes(alloc: Global, seed: u64) -> Result<Vec<u8>, AllocError>
    ensures { IfOk result (λ dat. dat.items ≡ dat_text seed) }
{
    let mut dat = Vec::with_capacity(alloc, BYTES_OF_DAT)?;
    let mut number = seed;
    for index in 0..DISTURBANCES {
        number = next_number(number);
        let disturbance = Disturbance::new(index, number);
        let start = CYCLES_OF_INDEX * index;
        push_cycles(Some(disturbance), start, start + CYCLES_OF_INDEX, &mut dat)?;
    }
    push_cycles(None, CYCLES_OF_INDEX * DISTURBANCES, CYCLES, &mut dat)?;
    Ok(dat)
}

// The records of the cycles from one to another, which is not included.
fn push_cycles(
    disturbance: Option<Disturbance>,
    start: u32,
    end: u32,
    dat: &mut Vec<u8>,
) -> Result<(), AllocError>
    requires forward { start ≤ end }
    requires within { end ≤ CYCLES }
    ensures { OnOk result (dat.new.items ≡ dat.old.items ++ records_of_cycles disturbance start end) }
{
    for cycle in start..end {
        push_cycle(disturbance, cycle, dat)?;
    }
    Ok(())
}

// The records of a cycle.
fn push_cycle(
    disturbance: Option<Disturbance>,
    cycle: u32,
    dat: &mut Vec<u8>,
) -> Result<(), AllocError>
    requires { cycle < CYCLES }
    ensures { OnOk result (dat.new.items ≡ dat.old.items ++ records_of_cycles disturbance cycle (cycle + 1)) }
{
    for (place, count) in SINE.iter().enumerate() {
        let number = SAMPLES_OF_CYCLE * cycle + place as u32 + 1;
        dat.extend_from_slice(&record_bytes(number, channel_counts(disturbance, cycle, *count)))?;
    }
    Ok(())
}

// The bytes of a record.
fn record_bytes(number: u32, counts: [i16; 3]) -> [u8; BYTES_OF_RECORD]
    ensures { result ≡ record_bytes number counts }
{
    let number = number.to_le_bytes();
    let first = counts[0].to_le_bytes();
    let second = counts[1].to_le_bytes();
    let third = counts[2].to_le_bytes();
    [
        number[0], number[1], number[2], number[3], 0, 0, 0, 0, first[0], first[1], second[0],
        second[1], third[0], third[1],
    ]
}
