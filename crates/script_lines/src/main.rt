// `script_lines`: the lines of a script on standard input, and on standard output how each is read: its name and numbers anew, or
// `malformed`, or `passed`. Its stored run has each line of the format at the borders of its ranges; `make` writes it from the format.
#![tactic(auto)]

mod describe;
mod input;
mod lines;

use crate::input::{MOST, fill};
use crate::lines::write_lines;
use std::io;
use stdio::streams::{Input, Output};

// Reads the input and writes a line for each of its lines, as far as there is room. The error of a read that failed is told behind them.
fn main(rt: HostRuntime) -> io::Result<()> {
    let mut input = Input::new(rt.stdin());
    let mut script = [0u8; MOST];
    let filled = fill(&mut input, &mut script);
    let mut output = Output::new(rt.stdout());
    // Where there is no more room the lines end: that is no failure.
    let _full = write_lines(&script[..filled], &mut output.held);
    output.write_held()?;
    input.told()
}
