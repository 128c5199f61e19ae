// The files that words name.
ghost use Rattle.std.specs.Prelude.{◌≡◌};
ghost use Rattle.pq_course.specs.InputFile.{limit_of, number_of, quantity_of, refusal_of};
ghost use Rattle.pq_course.specs.Parts.{IsFileRead};
ghost use Rattle.pq_course.specs.TopCall.{reading_of};

use comtrade_cfg::{MOST_CFG_BYTES, Quantity};
use comtrade_dat::MOST_DAT_BYTES;
use pq_base::{ReadAll, Shelf, Text, read_all};
use status_text::Status;
use std::alloc::Global;

/// The most bytes that a schedule may have (profile).
pub const MOST_SCHEDULE_BYTES: u64 = 1_048_576;

/// A file that words name.
#[derive(Clone, Copy)]
pub enum InputFile {
    Cfg,
    Dat,
    Schedule,
}

/// The bytes of the file of this name, or the status of a call that can't have them. The shelf is asked for
/// it once.
pub fn read_file<K: Shelf>(
    alloc: Global,
    shelf: &mut K,
    file: InputFile,
    name: &str,
) -> Result<Text, Status>
    ensures value { IsFileRead file name.now (reading_of K.Shelf shelf.old shelf.new) result }
    ensures files { K.files shelf.new ≡ K.files shelf.old }
{
    match read_all(alloc, shelf, name, limit_of(file)) {
        Ok(bytes) => Ok(Text::new(bytes)),
        Err(why) => Err(refusal(file, shelf, why)),
    }
}

// The status of a call that can't have a file.
pub(crate) fn refusal<K: Shelf>(file: InputFile, shelf: &K, why: ReadAll) -> Status
    ensures { result ≡ refusal_of file why (K.faults shelf.now) }
{
    match why {
        ReadAll::Failed => Status::ReadFault {
            faults: shelf.faults(),
        },
        ReadAll::Missing => Status::NoFile {
            file: number_of(file),
        },
        ReadAll::Over => Status::Limit {
            what: quantity_of(file),
            line: 0,
        },
        ReadAll::OutOfMemory => Status::OutOfMemory,
    }
}

// Its number in the order of the words, from 1.
fn number_of(file: InputFile) -> u32
    ensures { result ≡ number_of file }
{
    match file {
        InputFile::Cfg => 1,
        InputFile::Dat => 2,
        InputFile::Schedule => 3,
    }
}

// The most bytes that it may have.
pub(crate) fn limit_of(file: InputFile) -> u64
    ensures { result ≡ limit_of file }
{
    match file {
        InputFile::Cfg => MOST_CFG_BYTES as u64,
        InputFile::Dat => MOST_DAT_BYTES,
        InputFile::Schedule => MOST_SCHEDULE_BYTES,
    }
}

fn quantity_of(file: InputFile) -> Quantity
    ensures { result ≡ quantity_of file }
{
    match file {
        InputFile::Cfg => Quantity::CfgBytes,
        InputFile::Dat => Quantity::DatBytes,
        InputFile::Schedule => Quantity::ScheduleBytes,
    }
}
