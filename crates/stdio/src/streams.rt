// The input of a program, read piece by piece, and its output, held until there is much of it.
ghost use Rattle.std.specs.Prelude.{◌≡◌, ◌+◌, ◌-◌, ◌<◌, ◌≤◌, ◌↔◌, ◌++◌, IsOk, IsNone, IsSome, OnOk, Ok, Some, length, min, take};
ghost use Rattle.std.specs.Counts.{IsPrefixLen};
ghost use Rattle.std.specs.Io.{WritesAtMost};
ghost use Rattle.std.specs.Io.KnownBytes.{Appends, Consumes, IsAtEnd, Keeps, WriteAppends};

use std::io;
use std::io::{ErrorKind, Read, Write};

// A reader, and the error of the read that failed, where one did. A failed read is the end of the input: none is tried after it.
#[derive(Drop)]
pub struct Input<R> {
    from: R,
    failed: Option<io::Error>,
}

impl<R: Read + Drop> Input<R> {
    // The input of a reader from which nothing was read yet.
    pub fn new(from: R) -> Self
        ensures from { result.from ≡ from }
        ensures good { IsNone result.failed }
    {
        Input { from, failed: None }
    }

    // How many bytes one read put at the start of `piece`: none at the end.
    pub fn read(&mut self, piece: &mut [u8]) -> usize
        ensures count { IsPrefixLen result piece.new }
        ensures bytes { IsNone self.new.failed → Consumes (R.remaining self.old.from) (R.remaining self.new.from) (take result piece.new) }
        ensures end { IsNone self.new.failed → result ≡ 0 → 0 < length piece.new → IsAtEnd (R.remaining self.new.from) }
        ensures failed { IsSome self.new.failed → result ≡ 0 }
        ensures kept { IsSome self.old.failed → self.new ≡ self.old }
    {
        if self.failed.is_some() {
            return 0;
        }
        match self.from.read(piece) {
            Ok(n) => n,
            Err(e) => {
                self.failed = Some(e);
                0
            }
        }
    }

    // The error of the read that failed, where one did. The programs tell it after what they wrote.
    pub fn told(self) -> io::Result<()>
        ensures { IsOk result ↔ IsNone self.failed }
    {
        match self.failed {
            Some(e) => Err(e),
            None => Ok(()),
        }
    }
}

// How much output there is room for.
const ROOM: usize = 65536;

// The output is written when more than this is held: what a program adds at once is less than the rest of the room.
const MUCH: usize = 32768;

// Output that is held, as far as there is room: the first `count` bytes.
#[derive(Drop)]
pub struct Held {
    bytes: [u8; ROOM],
    count: usize,
    ghost within: { count ≤ 65536 },
}

impl Held {
    // Adds the bytes behind those that are held.
    #[inline(always)]
    fn add(&mut self, bytes: &[u8])
        requires { self.old.count + length bytes.now ≤ 65536 }
        ensures count { self.new.count ≡ self.old.count + length bytes.now }
        ensures added { take self.new.count self.new.bytes ≡ take self.old.count self.old.bytes ++ bytes.now }
    {
        let end = self.count + bytes.len();
        self.bytes[self.count..end].copy_from_slice(bytes);
        self.count = end;
    }
}

impl Write for Held {
    ghost contents = { λ h. Some (take h.count h.bytes) };

    // Adds as many of the bytes as there is room for.
    fn write(&mut self, bytes: &[u8]) -> io::Result<usize>
        ensures bound { WritesAtMost result bytes.now }
        ensures bytes { WriteAppends (Some (take self.old.count self.old.bytes)) (Some (take self.new.count self.new.bytes)) result bytes.now }
        ensures count { result ≡ Ok (min (65536 - self.old.count) (length bytes.now)) }
    {
        let n = bytes.len().min(ROOM - self.count);
        self.add(&bytes[..n]);
        Ok(n)
    }

    fn flush(&mut self) -> io::Result<()>
        ensures bytes { Keeps (Some (take self.old.count self.old.bytes)) (Some (take self.new.count self.new.bytes)) }
        ensures unchanged { IsOk result × (self.new ≡ self.old) }
    {
        Ok(())
    }

    // Does what that of std does, but with no loop: a line comes in many small pieces.
    #[inline(always)]
    fn write_all(&mut self, bytes: &[u8]) -> io::Result<()>
        ensures bytes { OnOk result
            (Appends (Some (take self.old.count self.old.bytes)) (Some (take self.new.count self.new.bytes)) bytes.now) }
        ensures fits { self.old.count + length bytes.now ≤ 65536 → IsOk result }
    {
        if ROOM - self.count < bytes.len() {
            self.write(bytes)?;
            return Err(io::Error::from(ErrorKind::WriteZero));
        }
        self.add(bytes);
        Ok(())
    }
}

// A writer, and the output that is held for it: what is written to `held`.
#[derive(Drop)]
pub struct Output<W> {
    to: W,
    pub held: Held,
}

impl<W: Write + Drop> Output<W> {
    // The output for a writer: nothing is held yet.
    pub fn new(to: W) -> Self
        ensures to { result.to ≡ to }
        ensures empty { result.held.count ≡ 0 }
    {
        Output {
            to,
            held: Held {
                bytes: [0; ROOM],
                count: 0,
            },
        }
    }

    // Writes what is held. Nothing is held after it, also where the write failed: no byte is written twice.
    pub fn write_held(&mut self) -> io::Result<()>
        ensures written { OnOk result (Appends (W.contents self.old.to) (W.contents self.new.to) (take self.old.held.count self.old.held.bytes)) }
        ensures empty { self.new.held.count ≡ 0 }
    {
        let count = self.held.count;
        self.held.count = 0;
        self.to.write_all(&self.held.bytes[..count])
    }

    // Writes what is held, where it is much.
    pub fn write_much(&mut self) -> io::Result<()>
        ensures little { self.old.held.count ≤ 32768 → IsOk result × (self.new ≡ self.old) }
        ensures much { 32768 < self.old.held.count → self.new.held.count ≡ 0 }
        ensures written { 32768 < self.old.held.count →
            OnOk result (Appends (W.contents self.old.to) (W.contents self.new.to) (take self.old.held.count self.old.held.bytes)) }
    {
        if self.held.count <= MUCH {
            return Ok(());
        }
        self.write_held()
    }
}
