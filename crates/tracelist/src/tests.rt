// A run that no clause speaks of: the reader fails in the middle of a block.
use crate::list::Form;
use crate::list_all;
use std::io;
use std::io::{ErrorKind, Read};

// A reader of zeros, of which so many are left; then it fails.
#[derive(Drop)]
struct Failing {
    left: usize,
}

impl Read for Failing {
    fn read(&mut self, buf: &mut [u8]) -> io::Result<usize> {
        if self.left == 0 {
            return Err(io::Error::from(ErrorKind::BrokenPipe));
        }
        let n = buf.len().min(self.left).min(100);
        buf[..n].fill(0);
        self.left -= n;
        Ok(n)
    }
}

// What was read is listed before the error is told: a block of zeros, which has no records, and what is there of the second.
#[test]
fn lists_what_came_before_a_failed_read(rt: HostRuntime) {
    let mut listed = Vec::new(rt.alloc());
    let ended = list_all(Form::Numbers, Failing { left: 600 }, &mut listed);
    assert_eq!(rt;
        ended.map_err(|error| error.kind()),
        Err(ErrorKind::BrokenPipe)
    );
    assert_eq!(rt;
        listed.as_slice(),
        b"rec event from to answer\nblock 1 refused 16\n".as_slice()
    );
}
