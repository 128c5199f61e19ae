//! Lines and fields of a configuration text, and why one is at fault.
#![tactic(auto)]

pub use cursor::{Cursor, only_blank_lines};
pub use fault::{CfgFault, Quantity, Unsupported};
pub use field::{
    channel_count, decimal_text, frequency_field, is_word, number_field, position_field,
    rate_field, samples_field, text_field,
};
pub use field_line::FieldLine;
pub use laws::{reads_fields, reads_numbers_back};
pub use limits::MOST_CHANNELS;
pub use time_field::{hexadecimal, leap_field, local_code, moment_fields};

mod blank;
mod cursor;
mod fault;
mod field;
mod field_line;
mod laws;
mod limits;
mod time_field;
