// The command `check`.
ghost use Rattle.pq_run.specs.Check.{check_course};
ghost use Rattle.pq_course.specs.Parts.{IsRead};
ghost use Rattle.pq_course.specs.TopCall.{reading_of};

use comtrade_cfg::{print_cfg, read_cfg};
use pq_base::{Shelf, Text};
use pq_course::{InputFile, read_file};
use status_text::Status;
use std::alloc::Global;

/// The canonical text of a cfg.
pub fn check<K: Shelf>(alloc: Global, cfg: &str, shelf: &mut K) -> Result<Text, Status>
    ensures { IsRead (check_course cfg.now) (reading_of K.Shelf shelf.old shelf.new) result }
{
    let cfg = read_file(alloc, shelf, InputFile::Cfg, cfg)?;
    let cfg = read_cfg(alloc, cfg.bytes())?;
    let text = print_cfg(alloc, &cfg)?;
    Ok(text)
}
