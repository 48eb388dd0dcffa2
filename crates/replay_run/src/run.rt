// A run: what a script has changed so far, and its lines performed one after another.
use crate::ending::ending;
use crate::session::Session;
use crate::stop::Stop;
use crate::tracing::Trace;
use script::line::Line;
use script::parse::parse;
use std::io;
use std::io::Write;

// The session and the one to go back to; how many calls and lines there were; the trace, where it is written in place of text.
#[derive(Drop)]
pub struct Run {
    pub session: Session,
    kept: Session,
    pub calls: u64,
    lines: u64,
    pub trace: Option<Trace>,
}

impl Run {
    // The run before its first line; until a `mark`, `back` returns to its first session.
    pub fn new(traced: bool) -> Run {
        let session = Session::new();
        Run {
            session,
            kept: session,
            calls: 0,
            lines: 0,
            trace: traced.then(Trace::new),
        }
    }

    // A call with its output, or what stands around the calls, with the bytes that the line names. They go beside the line, since it holds
    // no slice of them (`Line` says why).
    fn perform<W: Write>(&mut self, line: Line, bytes: &[u8], to: &mut W) -> io::Result<()> {
        match line {
            Line::Pool(at, count) => self.session.store(at, bytes, count),
            Line::PoolLength(length) => self.session.length = length,
            Line::Mark => self.kept = self.session,
            Line::Back => self.session = self.kept,
            _ => return self.call(line, bytes, to),
        }
        Ok(())
    }

    // Reads a line and performs it.
    pub fn line<W: Write>(&mut self, words: &[u8], to: &mut W) -> Result<(), Stop> {
        let mut bytes = [0u8; 1024];
        if let Some(line) = parse(words, &mut bytes)? {
            self.perform(line, &bytes, to)?;
        }
        self.lines = self.lines.wrapping_add(1);
        Ok(())
    }

    // What is written last: a malformed line's number, or at the end of the input the book. A trace ends with the call before.
    pub fn end<W: Write>(&mut self, stopped: Result<(), Stop>, to: &mut W) -> io::Result<()> {
        match (stopped, &mut self.trace) {
            (Err(Stop::Unwritten(e)), _) => Err(e),
            (_, Some(trace)) => trace.end(to),
            (Err(Stop::Malformed), None) => {
                writeln!(to, "line {} malformed", self.lines.wrapping_add(1))
            }
            (Ok(()), None) => ending(&self.session, to),
        }
    }
}
