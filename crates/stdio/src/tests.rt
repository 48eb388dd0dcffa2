// The arguments of runs that no clause can speak of, an input whose reader fails in the middle, and an output at its writers.
use crate::arguments::{Usage, asked, none_asked};
use crate::streams::{Input, Output};
use std::alloc::Global;
use std::env::{Env, FillError};
use std::io;
use std::io::{ErrorKind, Read, Write};

// The first argument of a program, where it has one, and whether there is a second. A first argument may be longer than any buffer.
#[derive(Drop)]
struct Given {
    first: Option<&'static [u8]>,
    too_long: bool,
    more: bool,
}

impl Env for Given {
    fn arg(&self, i: usize, buf: &mut [u8]) -> Result<usize, FillError> {
        let there = self.first.is_some();
        if there && (2 < i || i == 2 && !self.more) || !there && 0 < i {
            return Err(FillError::NotPresent);
        }
        let word = self.first.unwrap_or(b"");
        if self.too_long || buf.len() < word.len() {
            return Err(FillError::TooLong);
        }
        buf[..word.len()].copy_from_slice(word);
        Ok(word.len())
    }

    fn var(&self, _name: &str, _buf: &mut [u8]) -> Result<usize, FillError> {
        Err(FillError::NotPresent)
    }

    fn var_at(&self, _i: usize, _buf: &mut [u8]) -> Result<usize, FillError> {
        Err(FillError::NotPresent)
    }
}

// The arguments that say `first` alone.
fn only(first: &'static [u8]) -> Given {
    Given {
        first: Some(first),
        too_long: false,
        more: false,
    }
}

#[test]
fn says_what_is_asked(rt: HostRuntime) {
    let none = Given {
        first: None,
        too_long: false,
        more: false,
    };
    assert_eq!(rt; asked(&none, b"graph"), Ok(false));
    assert_eq!(rt; none_asked(&none), Ok(()));
    assert_eq!(rt; asked(&only(b"graph"), b"graph"), Ok(true));
    assert_eq!(rt; none_asked(&only(b"graph")), Err(Usage));
    let others = [
        only(b""),
        only(b"grap"),
        only(b"graphs"),
        only(b"\xff"),
        Given {
            more: true,
            ..only(b"graph")
        },
        Given {
            too_long: true,
            ..only(b"graph")
        },
    ];
    for other in &others {
        assert_eq!(rt; asked(other, b"graph"), Err(Usage));
        assert_eq!(rt; none_asked(other), Err(Usage));
    }
}

// A reader whose second read fails; the others give a byte.
#[derive(Drop)]
struct Failing {
    reads: u8,
}

impl Read for Failing {
    fn read(&mut self, buf: &mut [u8]) -> io::Result<usize> {
        self.reads = self.reads.wrapping_add(1);
        if self.reads == 2 {
            return Err(io::Error::from(ErrorKind::BrokenPipe));
        }
        match buf.first_mut() {
            Some(byte) => {
                *byte = self.reads;
                Ok(1)
            }
            None => Ok(0),
        }
    }
}

#[test]
fn ends_at_a_failed_read(rt: HostRuntime) {
    let mut input = Input::new(Failing { reads: 0 });
    let mut piece = [0u8; 4];
    assert_eq!(rt; input.read(&mut piece), 1);
    assert_eq!(rt; piece, [1, 0, 0, 0]);
    assert_eq!(rt; input.read(&mut piece), 0);
    assert_eq!(rt; input.read(&mut piece), 0);
    assert_eq!(rt;
        input.told().map_err(|e| e.kind()),
        Err(ErrorKind::BrokenPipe)
    );
}

#[test]
fn tells_nothing_where_no_read_failed(rt: HostRuntime) {
    let mut input = Input::new(b"ab".as_slice());
    let mut piece = [0u8; 4];
    assert_eq!(rt; input.read(&mut piece), 2);
    assert_eq!(rt; input.read(&mut piece), 0);
    assert!(rt; input.told().is_ok());
}

// How much is written of so much output, where it is much.
fn written_of(alloc: Global, bytes: &[u8]) -> io::Result<usize> {
    let mut written = Vec::new(alloc);
    let mut output = Output::new(&mut written);
    output.held.write_all(bytes)?;
    output.write_much()?;
    Ok(written.len())
}

#[test]
fn holds_output_until_there_is_much(rt: HostRuntime) {
    assert_eq!(rt; written_of(rt.alloc(), &[b'a'; 32768]).ok(), Some(0));
    assert_eq!(rt; written_of(rt.alloc(), &[b'a'; 32769]).ok(), Some(32769));
}

// A writer whose writes fail.
#[derive(Drop)]
struct Closed;

impl Write for Closed {
    fn write(&mut self, _bytes: &[u8]) -> io::Result<usize> {
        Err(io::Error::from(ErrorKind::BrokenPipe))
    }

    fn flush(&mut self) -> io::Result<()> {
        Ok(())
    }
}

#[test]
fn holds_nothing_after_a_failed_write(rt: HostRuntime) {
    let mut output = Output::new(Closed);
    assert!(rt; output.held.write_all(b"ab").is_ok());
    assert_eq!(rt;
        output.write_held().map_err(|e| e.kind()),
        Err(ErrorKind::BrokenPipe)
    );
    assert!(rt; output.write_held().is_ok());
}
