// A list whose check is known: a line with the known check, what `fcs` answers and what the second implementation answers.
use crate::bitwise;
use fcs::fcs::fcs;
use std::io;

// The line of a list: its name, the known check, both answers, and whether both are the known check.
pub fn line(rt: &impl Print, name: &str, bytes: &[u8], expected: u16) -> io::Result<()> {
    let got = fcs(bytes);
    let second = bitwise::check(bytes);
    let said = verdict(got == expected && second == expected);
    println!(rt; "{name}: expected {expected:04x}, fcs {got:04x}, bit by bit {second:04x}: {said}")
}

// The end of a line.
pub fn verdict(same: bool) -> &'static str {
    if same { "same" } else { "DIFFERENT" }
}
