// What stands after a line's name: numbers in their ranges, bytes, or a power.
ghost use Rattle.std.specs.Prelude.{◌≡◌, [], ◌∷◌, ◌≤◌, OnOk, IfOk, length, option_map};
ghost use Rattle.std.proofs.lemmas.List.Edits.{sets};
ghost use Rattle.script.specs.Words.{others};
ghost use Rattle.script.specs.Arguments.{
  any,
  read_numbers,
  read_power,
  read_signed,
  count_of,
  bytes_said,
  read_bytes,
  read_placed,
};

use crate::line::{Line, Malformed};
use crate::words::{Words, number_in};

// The area that the pool is a part of.
pub(crate) const AREA: u64 = 4096;
// A number that may be any below 2^64.
const ANY: u64 = u64::MAX;
// The most bytes that one completion brings.
const MOST_ARRIVED: usize = 160;

// The words are bytes, at most `most` of them, and go into `bytes` from its start on. How many they are. It counts by hand, as a proof does
// not know what is written through `iter_mut`.
#[tactic(auto, using(crate::proofs::ArgumentLaws::too_many, crate::proofs::ArgumentLaws::no_room))]
fn byte_words(words: Words, most: usize, bytes: &mut [u8]) -> Result<usize, Malformed>
    ensures count { result ≡ count_of most (length bytes.old) words.entry }
    ensures few { IfOk result (λ count. count ≤ most) }
    ensures room { IfOk result (λ count. count ≤ length bytes.old) }
    ensures laid { OnOk result (bytes.new ≡ sets bytes.old 0 (bytes_said words.entry)) }
{
    let mut count = 0;
    for word in words {
        let Some(byte) = number_in(word, 255) else {
            return Err(Malformed);
        };
        if most <= count || bytes.len() <= count {
            return Err(Malformed);
        }
        bytes[count] = byte as u8;
        count += 1;
    }
    Ok(count)
}

// A line whose name is its only word.
#[tactic(auto, unfolding(crate::specs::Arguments::read_numbers))]
pub(crate) fn plain(words: Words, read: Line) -> Result<Line, Malformed>
    ensures { result ≡ read_numbers [] read words.entry }
{
    words.end()?;
    Ok(read)
}

// `new`: the length of spi_buf, and a channel of one byte.
#[tactic(auto, using(crate::proofs::ArgumentLaws::number_laws))]
pub(crate) fn new_line(mut words: Words) -> Result<Line, Malformed>
    ensures { result ≡ read_numbers (any ∷ 255 ∷ []) Line.New words.entry }
{
    let length = words.number(ANY)?;
    let channel = words.last_number(255)?;
    Ok(Line::New(length, channel as u8))
}

// `transmit`: the buffer, its length and the frame's length, each any number.
#[tactic(auto, using(crate::proofs::ArgumentLaws::number_laws))]
pub(crate) fn transmit_line(mut words: Words) -> Result<Line, Malformed>
    ensures { result ≡ read_numbers (any ∷ any ∷ any ∷ []) Line.Transmit words.entry }
{
    let buffer = words.number(ANY)?;
    let length = words.number(ANY)?;
    let frame_len = words.last_number(ANY)?;
    Ok(Line::Transmit(buffer, length, frame_len))
}

// `set_receive_buffer`: the buffer and its length, each any number.
#[tactic(auto, using(crate::proofs::ArgumentLaws::number_laws))]
pub(crate) fn receive_buffer_line(mut words: Words) -> Result<Line, Malformed>
    ensures { result ≡ read_numbers (any ∷ any ∷ []) Line.SetReceiveBuffer words.entry }
{
    let buffer = words.number(ANY)?;
    let length = words.last_number(ANY)?;
    Ok(Line::SetReceiveBuffer(buffer, length))
}

// `read_write_done`: the bytes that arrived, at most 160.
#[tactic(auto, using(crate::proofs::ArgumentLaws::not_bytes))]
pub(crate) fn done_line(words: Words, bytes: &mut [u8]) -> Result<Line, Malformed>
    ensures read { result ≡ read_bytes 0 160 (λ bs. Line.ReadWriteDone (length bs)) (length bytes.old) words.entry }
    ensures laid { OnOk result (bytes.new ≡ sets bytes.old 0 (bytes_said words.entry)) }
{
    let count = byte_words(words, MOST_ARRIVED, bytes)?;
    Ok(Line::ReadWriteDone(count))
}

// `set_address_long`: eight bytes, no fewer and no more.
#[tactic(auto, using(crate::proofs::ArgumentLaws::bytes_laws))]
pub(crate) fn address_long_line(words: Words, bytes: &mut [u8]) -> Result<Line, Malformed>
    ensures read { result ≡ read_bytes 8 8 Line.SetAddressLong (length bytes.old) words.entry }
    ensures laid { OnOk result (bytes.new ≡ sets bytes.old 0 (bytes_said words.entry)) }
{
    let count = byte_words(words, 8, bytes)?;
    let address = bytes[..count].as_array().copied().ok_or(Malformed)?;
    Ok(Line::SetAddressLong(address))
}

// A word that says a power of -128 to 127: its size, behind a minus where it is below 0; `-0` is 0.
#[tactic(auto, using(crate::proofs::ArgumentLaws::power_laws))]
fn power(word: &[u8]) -> Option<Line>
    ensures { result ≡ read_signed Line.SetTxPower word.now }
{
    match word.strip_prefix(b"-") {
        Some(size) => number_in(size, 128).map(|size| Line::SetTxPower((-(size as i64)) as i8)),
        None => number_in(word, 127).map(|size| Line::SetTxPower(size as i8)),
    }
}

// `set_tx_power`: one such word.
#[tactic(auto, using(crate::proofs::ArgumentLaws::power_laws))]
pub(crate) fn power_line(words: Words) -> Result<Line, Malformed>
    ensures { result ≡ read_power Line.SetTxPower words.entry }
{
    power(words.only()?).ok_or(Malformed)
}

// `pool`: a place in the area, and bytes that do not go past the area's end.
#[tactic(auto, using(crate::proofs::ArgumentLaws::not_placed))]
pub(crate) fn pool_line(mut words: Words, bytes: &mut [u8]) -> Result<Line, Malformed>
    ensures read { result ≡ read_placed 4096 (λ at bs. Line.Pool at (length bs)) (length bytes.old) words.entry }
    ensures laid { OnOk result (bytes.new ≡ sets bytes.old 0 (bytes_said (others words.entry))) }
{
    let at = words.number(AREA)?;
    let count = byte_words(words, (AREA - at) as usize, bytes)?;
    Ok(Line::Pool(at as usize, count))
}
