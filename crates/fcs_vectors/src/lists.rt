// Many lists at a time: of how many both implementations answer the same, and how many single flips change the check.
ghost use Rattle.std.specs.Prelude.{◌<◌};

use crate::bitwise;
use crate::known::verdict;
use fcs::fcs::fcs;
use std::io;

// A line with its name, the count that is expected and the one that was got, and whether they are the same.
pub fn line(rt: &impl Print, name: &str, got: usize, expected: usize) -> io::Result<()> {
    let said = verdict(got == expected);
    println!(rt; "{name}: expected {expected}, got {got}: {said}")
}

// Whether both implementations answer the same.
fn agrees(bytes: &[u8]) -> bool {
    fcs(bytes) == bitwise::check(bytes)
}

// Of how many of the 256 lists of one byte both implementations answer the same.
pub fn single_bytes() -> usize {
    (0..=255u8).filter(|b| agrees(&[*b])).count()
}

// The next number of a pseudo-random row (xorshift, 32 bits).
fn next(x: u32) -> u32 {
    let a = x ^ (x << 13);
    let b = a ^ (a >> 17);
    b ^ (b << 5)
}

// A list of pseudo-random bytes, another row for each seed.
fn row<const N: usize>(seed: u32) -> [u8; N] {
    let mut x = seed;
    let mut list = [0u8; N];
    for byte in &mut list {
        x = next(x);
        *byte = (x >> 24) as u8;
    }
    list
}

// Of how many lengths, 0 to 600, both answer the same for a list of pseudo-random bytes.
pub fn every_length() -> usize {
    (0..=600u16)
        .filter(|n| agrees(&row::<600>(u32::from(*n) + 1)[..usize::from(*n)]))
        .count()
}

// Whether the check of the list with one of its bits flipped is another.
fn shows(mut list: [u8; 510], bit: usize, check: u16) -> bool
    requires { bit < 4080 }
{
    list[bit / 8] ^= 1 << (bit % 8);
    fcs(&list) != check
}

// How many of the 4,080 single flips of a list of 510 pseudo-random bytes change its check.
pub fn single_flips() -> usize {
    let list = row::<510>(1);
    let check = fcs(&list);
    (0..4080usize)
        .filter(|bit| shows(list, *bit, check))
        .count()
}
