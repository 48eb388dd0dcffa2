// The input as a stream of lines: no more than a line is held, and the output is written when there is much of it.
use crate::run::Run;
use crate::stop::Stop;
use arrayvec::{ArrayVec, CapacityError};
use std::io::{Read, Write};
use stdio::streams::{Input, Output};

// The line that is gathered: it may come in several pieces.
type Text = ArrayVec<u8, 1024>;

// A line that is too long by now is malformed, and not waited for.
impl From<CapacityError> for Stop {
    fn from(_e: CapacityError) -> Stop {
        Stop::Malformed
    }
}

// A part of the input: each piece of it but the last ends a line, and the last may end one too.
fn feed<W: Write + Drop>(
    run: &mut Run,
    part: &[u8],
    text: &mut Text,
    output: &mut Output<W>,
) -> Result<(), Stop> {
    for piece in part.split_inclusive(|b| *b == b'\n') {
        let line = piece.strip_suffix(b"\n");
        text.try_extend_from_slice(line.unwrap_or(piece))?;
        if line.is_some() {
            run.line(text.as_slice(), &mut output.held)?;
            text.clear();
            output.write_much()?;
        }
    }
    Ok(())
}

// All lines of the input; the last may lack its line feed. Nothing says that an input ends, and a loop has to: this one ends after more
// turns than a run takes.
pub fn read_all<R: Read + Drop, W: Write + Drop>(
    run: &mut Run,
    input: &mut Input<R>,
    output: &mut Output<W>,
) -> Result<(), Stop> {
    let mut part = [0u8; 65536];
    let mut text = Text::new();
    for _ in 0..u64::MAX {
        let n = input.read(&mut part);
        if n == 0 {
            break;
        }
        feed(run, &part[..n], &mut text, output)?;
    }
    if !text.is_empty() {
        run.line(text.as_slice(), &mut output.held)?;
    }
    Ok(())
}
