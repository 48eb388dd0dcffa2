// The frame check sequence of a slice of bytes.
ghost use Rattle.std.specs.Prelude.{◌≡◌};
ghost use Rattle.fcs.specs.Fcs.{byte_step, fcs_from, fcs_of};
ghost use Rattle.fcs.specs.Word.{reduced};

use crate::block::EMPTY;
use crate::reduce::{fold, register};

// One byte into the register: `y` says where the generator is taken while the byte's bits leave, and its three lower terms are added.
fn byte_step(r: u16, b: u8) -> u16
    ensures { result ≡ byte_step r b }
{
    let x = r ^ b as u16;
    let l = x & 0xff;
    let y = (l ^ (l << 4)) & 0xff;
    (x >> 8) ^ (y << 8) ^ (y << 3) ^ (y >> 4)
}

// Eight bytes into the register that a word stands for.
fn word_step(y: u64, bytes: &[u8; 8]) -> u64
    ensures { reduced 64 result ≡ fcs_from (reduced 64 y) bytes.now }
{
    fold(y) ^ u64::from_le_bytes(*bytes)
}

// The bytes behind the last word into the register, one at a time. That a slice of all is the whole is cited for the edit that takes a
// slice here: what refuses it is then the byte that is left out, not the slice.
#[tactic(auto, using(crate::proofs::Register::from_is_fold, std::proofs::lemmas::List::take_all))]
fn rest_steps(r: u16, rest: &[u8]) -> u16
    ensures { result ≡ fcs_from r rest.now }
{
    rest.iter().fold(r, |r, b| byte_step(r, *b))
}

// The check of the bytes: thirty-two at a time, then eight, then one.
pub fn fcs(bytes: &[u8]) -> u16
    ensures { result ≡ fcs_of bytes.now }
{
    let (blocks, tail) = bytes.as_chunks::<32>();
    let (words, rest) = tail.as_chunks::<8>();
    let block = blocks.iter().fold(EMPTY, |s, b| s.with_bytes(b));
    let word = words.iter().fold(block.one_word(), |y, w| word_step(y, w));
    rest_steps(register(word), rest)
}
