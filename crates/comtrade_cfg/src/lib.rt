//! The cfg of a recording: reading, printing and the selection of channels.
#![tactic(auto)]

pub use cfg::{Analogue, Cfg, FileType, StatusLine, Zone};
pub use cfg_fields::{CfgFault, Quantity, Unsupported};
pub use laws::{
    bounds_configurations, orders_faults, reads_back, reads_the_grammar, selects_good_channels,
};
pub use limits::{MOST_CFG_BYTES, MOST_PICOVOLTS};
pub use print::print_cfg;
pub use read::read_cfg;
pub use select_fault::SelectFault;
pub use selection::{Selection, select};
pub use voltage::Coefficients;

mod cfg;
mod channel_lines;
mod form_lines;
mod head_lines;
mod laws;
mod limits;
mod print;
mod print_channels;
mod print_number;
mod print_stamp;
mod read;
mod sampling_lines;
mod select_fault;
mod selection;
mod time_lines;
mod voltage;
