// The lines of the input, one after another.
use crate::describe::Described;
use script::line::Malformed;
use script::parse::parse;
use std::io;
use std::io::Write;

// Writes how each line is read. The last may lack its line feed.
pub fn write_lines<W: Write>(input: &[u8], to: &mut W) -> io::Result<()> {
    let mut bytes = [0u8; 1024];
    for line in input.split_inclusive(|b| *b == b'\n') {
        let text = line.strip_suffix(b"\n").unwrap_or(line);
        match parse(text, &mut bytes) {
            Ok(Some(line)) => writeln!(
                to,
                "{}",
                Described {
                    line,
                    bytes: &bytes
                }
            )?,
            Ok(None) => writeln!(to, "passed")?,
            Err(Malformed) => writeln!(to, "malformed")?,
        }
    }
    Ok(())
}
