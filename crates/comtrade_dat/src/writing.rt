// The bytes of a record.
ghost use Rattle.std.specs.Prelude.{◌≡◌, ◌++◌, IfOk, OnOk};
ghost use Rattle.std.specs.List.{flat_map};
ghost use Rattle.comtrade_dat.specs.BinaryRecord.{count_bytes, record_bytes, word_bytes};

use pq_base::OutOfMemory;
use std::alloc::{AllocError, Global};

/// The bytes of one record: its sample number, its time stamp, its counts and its status words.
pub fn record16(
    alloc: Global,
    number: u32,
    stamp: u32,
    counts: &[i16],
    states: &[u16],
) -> Result<Vec<u8>, OutOfMemory>
    ensures { IfOk result (λ bytes. bytes.items ≡ record_bytes number stamp counts.now states.now) }
{
    let room = 8usize
        .saturating_add(2 * counts.len())
        .saturating_add(2 * states.len());
    let mut bytes = Vec::with_capacity(alloc, room)?;
    bytes.extend_from_slice(&number.to_le_bytes())?;
    bytes.extend_from_slice(&stamp.to_le_bytes())?;
    push_counts(counts, &mut bytes)?;
    push_words(states, &mut bytes)?;
    Ok(bytes)
}

fn push_counts(counts: &[i16], bytes: &mut Vec<u8>) -> Result<(), AllocError>
    ensures { OnOk result (bytes.new.items ≡ bytes.old.items ++ flat_map count_bytes counts.now) }
{
    for count in counts {
        bytes.extend_from_slice(&count.to_le_bytes())?;
    }
    Ok(())
}

fn push_words(words: &[u16], bytes: &mut Vec<u8>) -> Result<(), AllocError>
    ensures { OnOk result (bytes.new.items ≡ bytes.old.items ++ flat_map word_bytes words.now) }
{
    for word in words {
        bytes.extend_from_slice(&word.to_le_bytes())?;
    }
    Ok(())
}
