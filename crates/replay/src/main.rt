// `replay`: a script of calls on standard input, the driver's answers, or with the argument `trace` its trace blocks, on standard output.
#![tactic(auto)]

use replay_run::replay;
use std::io;
use stdio::arguments::{Usage, asked};

// Says on standard error how the program is called.
fn usage(rt: &impl Eprint) -> io::Result<()> {
    rt.eprintln(
        "usage: replay [trace] < script: what a script's calls yield, or their trace blocks",
    )
}

// Answers the script on standard input as the arguments ask, or says how the program is called.
fn main(rt: HostRuntime) -> io::Result<()> {
    let Ok(traced) = asked(&rt, b"trace") else {
        return usage(&rt);
    };
    replay(&mut rt.stdin(), &mut rt.stdout(), traced)
}
