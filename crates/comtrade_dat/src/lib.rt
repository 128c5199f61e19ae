//! The dat of a recording: its records are judged, and the samples of the selected channels kept.
#![tactic(auto)]

pub use dat_fault::DatFault;
pub use dat_reader::DatReader;
pub use laws::{dats_read_back, none_for_memory, records_read_back};
pub use limits::{MISSING_COUNT, MOST_DAT_BYTES};
pub use reading::read_dat;
pub use taking::{OneThread, SideBySide, Taking};
pub use writing::record16;

mod channel;
mod dat_fault;
mod dat_reader;
mod decoded;
mod fields;
mod good_records;
mod judging;
mod laws;
mod limits;
mod progress;
mod reading;
mod run_start;
mod sample;
mod taking;
mod writing;
