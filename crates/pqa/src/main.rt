//! The program: its words, real files, standard output and standard error go to a run, which gives the code.
#![tactic(auto)]

use lane_workers::OpenGate;
use pq_base::{ErrSink, FileShelf, OutSink};
use pq_run::{Streams, run, words_of};
use std::process::ExitCode;

fn main(rt: HostRuntime) -> ExitCode {
    let code = match words_of(&rt) {
        Ok(words) => {
            let stderr = rt.stderr();
            let out = OutSink::new(&rt);
            let err = ErrSink::new(&stderr);
            run(
                &rt,
                rt.alloc(),
                &words,
                &mut FileShelf::new(&rt),
                &mut Streams { out, err },
                &OpenGate,
            )
        }
        Err(status) => status.code(),
    };
    ExitCode::from(code)
}
