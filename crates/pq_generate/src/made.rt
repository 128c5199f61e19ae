// The files of a recording.
ghost use Rattle.std.specs.Prelude.{◌≡◌, IfOk};
ghost use Rattle.pq_generate.specs.GeneratedRecording.{cfg_text, dat_text};

use crate::records::dat_bytes;
use pq_base::{OutOfMemory, Text};
use std::alloc::{AllocError, Global};

/// The cfg and the dat of a generated recording.
#[derive(Drop)]
pub struct Made {
    pub cfg: Text,
    pub dat: Text,
}

// The bytes of the cfg, which is the same for each seed.
const CFG: &[u8] = b"generated,pqa,1999\r\n\
    3,3A,0D\r\n\
    1,UA,A,,V,0.0325,0,0,-32767,32767,1,1,P\r\n\
    2,UB,B,,V,0.0325,0,0,-32767,32767,1,1,P\r\n\
    3,UC,C,,V,0.0325,0,0,-32767,32767,1,1,P\r\n\
    50\r\n\
    1\r\n\
    1200,722400\r\n\
    01/03/2024,11:59:59.000000\r\n\
    01/03/2024,11:59:59.000000\r\n\
    BINARY\r\n\
    1\r\n";

/// The recording that a seed makes: 722,400 samples of three channels, disturbed ten times.
pub fn generate(alloc: Global, seed: u64) -> Result<Made, OutOfMemory>
    ensures cfg { IfOk result (λ made. made.cfg ≡ cfg_text) }
    ensures dat { IfOk result (λ made. made.dat ≡ dat_text seed) }
{
    let cfg = cfg_bytes(alloc)?;
    let dat = dat_bytes(alloc, seed)?;
    Ok(Made {
        cfg: Text::new(cfg),
        dat: Text::new(dat),
    })
}

fn cfg_bytes(alloc: Global) -> Result<Vec<u8>, AllocError>
    ensures { IfOk result (λ cfg. cfg.items ≡ cfg_text) }
{
    Vec::from_slice(alloc, CFG)
}
