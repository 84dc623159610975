// The program `jobshop`: the words of the process, its standard streams and its status.
#![tactic(auto)]

use shop_board::ByWorkers;
use shop_engine::{Reading, Writing};
use shop_program::start;
use std::io;
use std::process::ExitCode;

fn main(rt: HostRuntime) -> ExitCode {
    let mut source = Reading::new(rt.reader());
    let mut out = Writing::new(io::writer(&rt));
    let mut err = Writing::new(rt.stderr());
    ExitCode::from(start(&rt, &ByWorkers, &mut source, &mut out, &mut err))
}
