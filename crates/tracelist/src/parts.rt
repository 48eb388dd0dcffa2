// A reader that is read in large parts, however small the pieces are that are asked for.
ghost use Rattle.std.specs.Prelude.{◌≤◌};

use std::io;
use std::io::Read;

// How much is read at once.
const AT_ONCE: usize = 65536;

// A reader, the part that was read last, and from where to where nothing of it was given yet.
#[derive(Drop)]
pub struct Parts<R> {
    from: R,
    part: [u8; AT_ONCE],
    start: usize,
    end: usize,
    ghost ordered: { start ≤ end },
    ghost within: { end ≤ 65536 },
}

impl<R: Read> Parts<R> {
    // A reader from which nothing was read yet.
    pub fn new(from: R) -> Self {
        Parts {
            from,
            part: [0; AT_ONCE],
            start: 0,
            end: 0,
        }
    }
}

impl<R: Read> Read for Parts<R> {
    // A piece of the part, and where nothing of it is left, of the next.
    fn read(&mut self, piece: &mut [u8]) -> io::Result<usize> {
        if self.start == self.end {
            self.start = 0;
            self.end = 0;
            self.end = self.from.read(&mut self.part)?;
        }
        let n = piece.len().min(self.end - self.start);
        piece[..n].copy_from_slice(&self.part[self.start..self.start + n]);
        self.start += n;
        Ok(n)
    }
}
