// `replay_trace`: a script of calls on standard input, their trace blocks on standard output, as `replay trace` writes them. It is run on
// the stored script, whose trace has every event.
#![tactic(auto)]

use replay_run::replay;
use std::io;

// Answers the script on standard input with its trace.
fn main(rt: HostRuntime) -> io::Result<()> {
    replay(&mut rt.stdin(), &mut rt.stdout(), true)
}
