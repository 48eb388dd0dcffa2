// `corners`: document 01's corners that have no star, and its constants, each run on the driver and held to the Rust's answers.
#![tactic(auto)]

mod corner;
mod table;
mod yielded;

use arrayvec::ArrayVec;
use std::io;
use std::io::Write;

// More than the lines have bytes: they go out in one write.
const ROOM: usize = 4096;

// Runs the corners one after another, and writes their lines.
fn main(rt: HostRuntime) -> io::Result<()> {
    let mut out = ArrayVec::<u8, ROOM>::new();
    for corner in table::CORNERS {
        corner.write_line(&mut out)?;
    }
    rt.stdout().write_all(out.as_slice())
}
