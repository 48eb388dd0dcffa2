// `settings`: the setting of PHY_TX_PWR for each of the 256 powers of a signed byte, a line each.
#![tactic(auto)]

mod list;

use arrayvec::ArrayVec;
use std::io;
use std::io::{Eprint, Write};
use stdio::arguments::{Usage, none_asked};

// More than the list has bytes: it goes out in one write.
const ROOM: usize = 4096;

// Says on standard error how the program is called.
fn usage(rt: &impl Eprint) -> io::Result<()> {
    eprintln!(rt;
        "usage: settings: for each power from -128 to 127 a line, the power and its setting"
    )
}

// Writes the list to standard output. Where that fails, `main` ends with the error, and standard error says why.
fn write_list(to: &mut impl Write) -> io::Result<()> {
    let mut out = ArrayVec::<u8, ROOM>::new();
    list::write_lines(&mut out)?;
    to.write_all(out.as_slice())
}

// Without an argument the list is written.
fn main(rt: HostRuntime) -> io::Result<()> {
    match none_asked(&rt) {
        Ok(()) => write_list(&mut rt.stdout()),
        Err(Usage) => usage(&rt),
    }
}
