// A script run: its lines read from a reader, the calls that they ask for made on one driver, and their answers, or the trace that they
// leave, written to a writer.
#![tactic(auto)]

mod call;
mod ending;
mod lines;
mod run;
mod session;
mod stop;
mod tracing;

use run::Run;
use std::io;
use std::io::{Read, Write};
use stdio::streams::{Input, Output};

// Performs the whole script, and writes what it yields. After a write that failed nothing is written.
fn run_script<R: Read + Drop, W: Write + Drop>(
    input: &mut Input<R>,
    output: &mut Output<W>,
    traced: bool,
) -> io::Result<()> {
    let mut run = Run::new(traced);
    let stop = lines::read_all(&mut run, input, output);
    run.end(stop, &mut output.held)?;
    output.write_held()
}

// Runs the whole script. The output is held until there is much of it, so that the writer is called seldom; it is not flushed. The error of
// a read that failed comes after what was written.
pub fn replay<R: Read, W: Write>(from: &mut R, to: &mut W, traced: bool) -> io::Result<()> {
    let mut input = Input::new(from);
    run_script(&mut input, &mut Output::new(to), traced)?;
    input.told()
}
