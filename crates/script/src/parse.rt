// Reads one line of a script. Whatever is not exactly as the format has it is malformed. A name is looked for among the calls, the
// settings, the listeners, the queries and the lines around the calls, in turn, as text: of a pattern of bytes a proof would go through each
// byte at which a name may differ.
ghost use Rattle.std.specs.Prelude.{◌≡◌, OnOk, length};
ghost use Rattle.std.proofs.lemmas.List.Edits.{sets};
ghost use Rattle.script.specs.Arguments.{read_as, named};
ghost use Rattle.script.specs.Parse.{
  table,
  from_settings,
  from_listeners,
  from_queries,
  around_rows,
  form_of,
  line_of,
  bytes_of,
};

use crate::arguments::{
    AREA, address_long_line, done_line, new_line, plain, pool_line, power_line,
    receive_buffer_line, transmit_line,
};
use crate::line::{Line, Malformed};
use crate::words::Words;
use std::str;

// The longest line, without its line feed.
const LONGEST: usize = 1024;

// The line, given without its line feed; none, where it is empty or a remark. The bytes that it names go into `bytes`.
#[tactic(auto, using(crate::proofs::ParseLaws::no_utf8), unfolding(crate::specs::Parse::line_of, crate::specs::Parse::bytes_of))]
pub fn parse(line: &[u8], bytes: &mut [u8]) -> Result<Option<Line>, Malformed>
    ensures read { result ≡ line_of (length bytes.old) line.now }
    ensures laid { OnOk result (bytes.new ≡ sets bytes.old 0 (bytes_of line.now)) }
{
    if LONGEST < line.len() {
        return Err(Malformed);
    }
    if line.is_empty() || line[0] == b'#' {
        return Ok(None);
    }
    let mut words = Words::of(line);
    let name = words.next().ok_or(Malformed)?;
    match str::from_utf8(name) {
        Ok(name) => Ok(Some(call(name, words, bytes)?)),
        Err(_) => Err(Malformed),
    }
}

// The calls that a new driver, the radio's states, the kernel and a lent buffer have, in the order of the format's table. The name, the
// words behind it and the buffer go on from here as they are: a struct that holds a lent buffer would be taken apart again in each
// function.
#[tactic(auto, unfolding(crate::specs::Parse::form_of))]
fn call(name: &str, words: Words, bytes: &mut [u8]) -> Result<Line, Malformed>
    ensures read { result ≡ read_as (form_of table name.now) (length bytes.old) words.entry }
    ensures laid { OnOk result (bytes.new ≡ sets bytes.old 0 (named (form_of table name.now) words.entry)) }
{
    match name {
        "new" => new_line(words),
        "start" => plain(words, Line::Start),
        "stop" => plain(words, Line::Stop),
        "config_commit" => plain(words, Line::ConfigCommit),
        "fired" => plain(words, Line::Fired),
        "declined" => plain(words, Line::Declined),
        "resume" => plain(words, Line::Resume),
        "read_write_done" => done_line(words, bytes),
        "transmit" => transmit_line(words),
        "set_receive_buffer" => receive_buffer_line(words),
        "reset" => Ok(Line::Reset(words.flag()?)),
        _ => setting(name, words, bytes),
    }
}

// The settings: the addresses, the PAN, the power and the channel.
#[tactic(auto, using(crate::proofs::ArgumentLaws::number_laws), unfolding(crate::specs::Parse::form_of))]
fn setting(name: &str, words: Words, bytes: &mut [u8]) -> Result<Line, Malformed>
    ensures read { result ≡ read_as (form_of from_settings name.now) (length bytes.old) words.entry }
    ensures laid { OnOk result (bytes.new ≡ sets bytes.old 0 (named (form_of from_settings name.now) words.entry)) }
{
    match name {
        "set_address" => Ok(Line::SetAddress(words.last_number(65535)? as u16)),
        "set_pan" => Ok(Line::SetPan(words.last_number(65535)? as u16)),
        "set_address_long" => address_long_line(words, bytes),
        "set_tx_power" => power_line(words),
        "set_channel" => Ok(Line::SetChannel(words.last_number(255)? as u8)),
        _ => listener(name, words, bytes),
    }
}

// The lines that say whether a listener is there.
#[tactic(auto, unfolding(crate::specs::Parse::form_of))]
fn listener(name: &str, words: Words, bytes: &mut [u8]) -> Result<Line, Malformed>
    ensures read { result ≡ read_as (form_of from_listeners name.now) (length bytes.old) words.entry }
    ensures laid { OnOk result (bytes.new ≡ sets bytes.old 0 (named (form_of from_listeners name.now) words.entry)) }
{
    match name {
        "set_power_client" => Ok(Line::SetPowerClient(words.flag()?)),
        "set_transmit_client" => Ok(Line::SetTransmitClient(words.flag()?)),
        "set_receive_client" => Ok(Line::SetReceiveClient(words.flag()?)),
        "set_config_client" => Ok(Line::SetConfigClient(words.flag()?)),
        _ => query(name, words, bytes),
    }
}

// The calls that return a value, and `initialize`.
#[tactic(auto, unfolding(crate::specs::Parse::form_of))]
fn query(name: &str, words: Words, bytes: &mut [u8]) -> Result<Line, Malformed>
    ensures read { result ≡ read_as (form_of from_queries name.now) (length bytes.old) words.entry }
    ensures laid { OnOk result (bytes.new ≡ sets bytes.old 0 (named (form_of from_queries name.now) words.entry)) }
{
    match name {
        "initialize" => plain(words, Line::Initialize),
        "is_on" => plain(words, Line::IsOn),
        "busy" => plain(words, Line::Busy),
        "get_address" => plain(words, Line::GetAddress),
        "get_address_long" => plain(words, Line::GetAddressLong),
        "get_pan" => plain(words, Line::GetPan),
        "get_tx_power" => plain(words, Line::GetTxPower),
        "get_channel" => plain(words, Line::GetChannel),
        _ => around_calls(name, words, bytes),
    }
}

// The lines that are not calls.
#[tactic(auto, using(crate::proofs::ArgumentLaws::number_laws), unfolding(crate::specs::Parse::form_of))]
fn around_calls(name: &str, words: Words, bytes: &mut [u8]) -> Result<Line, Malformed>
    ensures read { result ≡ read_as (form_of around_rows name.now) (length bytes.old) words.entry }
    ensures laid { OnOk result (bytes.new ≡ sets bytes.old 0 (named (form_of around_rows name.now) words.entry)) }
{
    match name {
        "pool" => pool_line(words, bytes),
        "pool_length" => Ok(Line::PoolLength(words.last_number(AREA)? as usize)),
        "mark" => plain(words, Line::Mark),
        "back" => plain(words, Line::Back),
        _ => Err(Malformed),
    }
}
