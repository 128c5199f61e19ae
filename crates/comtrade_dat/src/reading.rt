// The reading of a dat.
ghost use Rattle.comtrade_cfg.specs.CfgText.{IsConfiguration};
ghost use Rattle.comtrade_cfg.specs.Configuration.{cfg_view};
ghost use Rattle.comtrade_cfg.specs.Selecting.{IsSelected, selection_view};
ghost use Rattle.comtrade_dat.specs.Samples.{Gives, samples_of};

use crate::dat_fault::DatFault;
use crate::dat_reader::DatReader;
use crate::taking::OneThread;
use comtrade_cfg::{Cfg, Selection};
use pq_base::Recording;
use std::alloc::Global;

/// The recording that the bytes of a dat make under a cfg and a selection that `select` gave of it.
///
/// # Errors
///
/// The first fault in this order: for each record [`DatFault::Short`] where its bytes are not all there,
/// [`DatFault::Number`] where its sample number is not that of the record before plus one, modulo 2^32
/// (the first record may have any), and [`DatFault::Missing`] with the least selected channel whose count
/// is missing; after the last record [`DatFault::Long`]. [`DatFault::OutOfMemory`] may come at any place.
pub fn read_dat(
    alloc: Global,
    cfg: &Cfg,
    selection: &Selection,
    bytes: &[u8],
) -> Result<Recording, DatFault>
    requires said { IsConfiguration (cfg_view cfg.now) }
    requires selected { IsSelected (cfg_view cfg.now) (selection_view selection.now) }
    ensures value { Gives result (samples_of (cfg_view cfg.now) (selection_view selection.now) bytes.now) }
{
    let mut reader = DatReader::open(alloc, cfg, selection)?;
    reader.feed(&OneThread, bytes)?;
    reader.finish(alloc)
}
