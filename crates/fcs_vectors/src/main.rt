// Check vectors of the frame check sequence: what `fcs` answers, held against known checks and against a second implementation.
#![tactic(auto)]

mod bitwise;
mod known;
mod lists;

use std::io;

// The acknowledgment is the standard's example: its check is sent as e4 79, low byte first. The check of the nine digits is the one by
// which this generator, start and bit order are known.
fn main(rt: HostRuntime) -> io::Result<()> {
    known::line(&rt, "acknowledgment 02 00 6a", &[0x02, 0x00, 0x6a], 0x79e4)?;
    known::line(&rt, "digits 123456789", b"123456789", 0x2189)?;
    known::line(&rt, "no bytes", b"", 0)?;
    known::line(&rt, "510 zero bytes", &[0u8; 510], 0)?;
    lists::line(&rt, "lists of one byte", lists::single_bytes(), 256)?;
    lists::line(&rt, "lists of 0 to 600 bytes", lists::every_length(), 601)?;
    lists::line(
        &rt,
        "single flips of 510 bytes that show",
        lists::single_flips(),
        4080,
    )
}
