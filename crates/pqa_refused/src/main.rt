//! The program with standard output in place of standard error, so that its stored run shows a sentence.
#![tactic(auto)]

use lane_workers::OpenGate;
use pq_base::{FileShelf, OutSink};
use pq_run::{Streams, run, words_of};
use std::process::ExitCode;

fn main(rt: HostRuntime) -> ExitCode {
    let code = match words_of(&rt) {
        Ok(words) => {
            let out = OutSink::new(&rt);
            let err = OutSink::new(&rt);
            run(
                &rt,
                rt.alloc(),
                &words,
                &mut FileShelf::new(&rt),
                &mut Streams { out, err },
                &OpenGate,
            )
        }
        Err(status) => status.code(),
    };
    ExitCode::from(code)
}
