// A configuration and the channels of it that are measured.
ghost use Rattle.std.specs.Prelude.{IfErr};
ghost use Rattle.comtrade_cfg.specs.Selecting.{wanted_view};
ghost use Rattle.pq_run.specs.RecordingFiles.{GivesSelected, selected_configuration};
ghost use Rattle.status_text.specs.Refusals.{IsRefusing};

use comtrade_cfg::{Cfg, Selection, read_cfg, select};
use status_text::Status;
use std::alloc::Global;

/// A configuration, and its selected channels.
#[derive(Drop)]
pub struct SelectedCfg {
    pub cfg: Cfg,
    pub selection: Selection,
}

/// The configuration that a cfg says, with its wanted channels and its reference, or the cfg's refusal.
#[tactic(auto, unfolding(crate::specs::RecordingFiles::selected_configuration))]
pub fn selected_cfg(
    alloc: Global,
    cfg: &[u8],
    wanted: Option<&[u32]>,
    reference: Option<u32>,
) -> Result<SelectedCfg, Status>
    ensures value { GivesSelected result
        (selected_configuration (wanted_view wanted.entry) reference cfg.now) }
    ensures refuses { IfErr result IsRefusing }
{
    let cfg = read_cfg(alloc, cfg)?;
    let selection = select(alloc, &cfg, wanted, reference)?;
    Ok(SelectedCfg { cfg, selection })
}
