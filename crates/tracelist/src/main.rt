// `tracelist`: trace blocks on standard input, a line for each of their records on standard output, in numbers or in words.
#![tactic(auto)]

mod blocks;
mod list;
mod numbers;
mod parts;
#[cfg(test)]
mod tests;

use blocks::{BLOCK, Blocks};
use list::{Form, Listing};
use std::io;
use std::io::{Eprint, Read, Write};
use stdio::arguments::{Usage, asked};

// The whole input, to its last block, which may be cut short. The error of a read that failed comes behind it. A proved loop has to end,
// and nothing says that the input does: it counts its turns, to a number that no run uses up.
fn list_all<R: Read + Drop, W: Write + Drop>(form: Form, from: R, to: W) -> io::Result<()> {
    let mut blocks = Blocks::new(from);
    let mut listing = Listing::new(form, to);
    listing.begin()?;
    for _ in 0..u64::MAX {
        let block = blocks.next();
        if !block.is_empty() {
            listing.block(block)?;
        }
        if block.len() < BLOCK {
            break;
        }
    }
    listing.end()?;
    blocks.told()
}

// Says on standard error how the program is called.
fn usage(rt: &impl Eprint) -> io::Result<()> {
    eprintln!(rt;
        "usage: tracelist [words] < blocks: a line for each record, in numbers or in words"
    )
}

// Lists standard input in the form that the arguments ask for, or says how the program is called.
fn main(rt: HostRuntime) -> io::Result<()> {
    let form = match asked(&rt, b"words") {
        Ok(true) => Form::Words,
        Ok(false) => Form::Numbers,
        Err(Usage) => return usage(&rt),
    };
    list_all(form, rt.stdin(), rt.stdout())
}
