// The data file type line and the time stamp multiplication factor line.
ghost use Rattle.std.specs.Prelude.{◌≡◌, map};
ghost use Rattle.cfg_fields.specs.Cursor.{read_by};
ghost use Rattle.cfg_fields.specs.Fields.{Gives};
ghost use Rattle.comtrade_cfg.specs.CfgText.{file_type_line, is_other_file_type, timemult_line};

use crate::cfg::FileType;
use cfg_fields::{CfgFault, FieldLine, Unsupported, decimal_text, is_word};
use pq_base::Text;
use std::alloc::Global;

/// The data file type line: ft.
pub(crate) fn file_type_line(line: &FieldLine) -> Result<FileType, CfgFault>
    ensures { Gives result (read_by file_type_line line.now) }
{
    let number = line.number;
    match line.fields.as_slice() {
        [ft] => {
            if is_word(ft, b"BINARY") {
                return Ok(FileType::Binary);
            }
            if is_other_file_type(ft) {
                return Err(CfgFault::Unsupported {
                    what: Unsupported::FileType,
                    line: number,
                });
            }
            Err(CfgFault::Field {
                line: number,
                field: 1,
            })
        }
        _ => Err(CfgFault::Line { number }),
    }
}

/// The time stamp multiplication factor line: timemult, which keeps its spelling.
pub(crate) fn timemult_line(alloc: Global, line: &FieldLine) -> Result<Text, CfgFault>
    ensures { Gives result (read_by timemult_line line.now) }
{
    let number = line.number;
    match line.fields.as_slice() {
        [timemult] => decimal_text(alloc, number, 1, timemult),
        _ => Err(CfgFault::Line { number }),
    }
}

// A file type that COMTRADE knows and this program does not support.
fn is_other_file_type(text: &[u8]) -> bool
    ensures { result ≡ is_other_file_type text.now }
{
    is_word(text, b"ASCII") || is_word(text, b"BINARY32") || is_word(text, b"FLOAT32")
}
