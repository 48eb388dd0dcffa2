// The input as a whole, as far as there is room for it.
ghost use Rattle.std.specs.Prelude.{◌≤◌};

use std::io::Read;
use stdio::streams::Input;

// The most bytes that are read.
pub const MOST: usize = 65536;

// Reads until the script is full or the input at its end, and answers how much of the script is there. How many turns that takes is up to
// the reads, so that a `for` would not be plainer.
pub fn fill<R: Read + Drop>(input: &mut Input<R>, script: &mut [u8; MOST]) -> usize
    ensures { result ≤ 65536 }
{
    let mut filled = 0;
    while filled < MOST {
        let n = input.read(&mut script[filled..]);
        if n == 0 {
            break;
        }
        filled += n;
    }
    filled
}
