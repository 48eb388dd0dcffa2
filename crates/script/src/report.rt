// What a call yields, as values that print themselves: its place, answer and states; its transfer; an action; what it returns. Each is a
// line without its line feed.
ghost use Rattle.std.specs.Prelude.{◌≡◌, ◌≤◌, ◌*◌, Some};
ghost use Rattle.script.specs.Report.{
  action_text,
  fields_text,
  flag_text,
  head_text,
  numbered_text,
  part,
  sent_bytes,
  transfer_text,
  value_text,
};

use itoa::Buffer;
use rf233::action::Action;
use rf233::answer::Answer;
use rf233::state::InternalState;
use rf233::transfer::Transfer;
use std::fmt;

// A flag as the lines have it: 1 or 0.
#[derive(Clone, Copy)]
pub struct Flag(pub bool);

impl fmt::Display for Flag {
    ghost output = { λ flag. Some (flag_text flag.0) };

    fn fmt<W: fmt::Write>(&self, f: &mut fmt::Formatter<W>) -> fmt::Result {
        f.write_str(if self.0 { "1" } else { "0" })
    }
}

// Numbers, with a space before each. Their digits are laid out by `itoa`: with a `write!` for each a line of them takes a tenth more.
#[derive(Clone, Copy)]
pub struct Fields<'a>(pub &'a [u8]);

impl fmt::Display for Fields<'_> {
    ghost output = { λ fields. Some (fields_text fields.0.now) };

    fn fmt<W: fmt::Write>(&self, f: &mut fmt::Formatter<W>) -> fmt::Result {
        let mut digits = Buffer::new();
        for number in self.0 {
            f.write_str(" ")?;
            f.write_str(digits.format(*number))?;
        }
        Ok(())
    }
}

// `PLACE ANSWER FROM TO`: a call's place in the script, its answer, and the states before and after.
#[derive(Clone, Copy)]
pub struct Head {
    pub place: u64,
    pub answer: Answer,
    pub from: InternalState,
    pub to: InternalState,
}

impl fmt::Display for Head {
    ghost output = { λ head. Some (head_text head) };

    fn fmt<W: fmt::Write>(&self, f: &mut fmt::Formatter<W>) -> fmt::Result {
        let answer = u8::from(self.answer);
        let from = u8::from(self.from);
        let to = u8::from(self.to);
        write!(f, "{} {answer} {from} {to}", self.place)
    }
}

// `transfer KIND WRITE READ BYTE...`: a transfer's kind, the lengths of its two buffers, and the bytes that the pool has in the buffer sent
// from.
#[derive(Clone, Copy)]
pub struct Started<'a> {
    pub transfer: Transfer,
    pub pool: &'a [u8],
}

// So many bytes of the pool from a buffer's place; none where it ends before the last of them.
fn part(pool: &[u8], start: usize, length: u16) -> &[u8]
    requires { start ≤ 255 * 160 }
    ensures { result.now ≡ part start length pool.now }
{
    let end = start + usize::from(length);
    let sent = pool.get(start..end);
    sent.unwrap_or(&[])
}

impl<'a> Started<'a> {
    // The bytes sent; none where the pool ends before the last of them.
    fn sent(&self) -> &'a [u8]
        ensures { result.now ≡ sent_bytes self.now.transfer self.now.pool.now }
    {
        let start = usize::from(self.transfer.write) * 160;
        part(self.pool, start, self.transfer.write_len)
    }
}

impl fmt::Display for Started<'_> {
    ghost output = { λ started. Some (transfer_text started.transfer started.pool.now) };

    fn fmt<W: fmt::Write>(&self, f: &mut fmt::Formatter<W>) -> fmt::Result {
        let t = self.transfer;
        write!(
            f,
            "transfer {} {} {}{}",
            u8::from(t.kind),
            t.write_len,
            t.read_len,
            Fields(self.sent())
        )
    }
}

// The same line of a transfer by its numbers, for one of a kind that there is not; of kind 0, which is none, it is empty.
#[derive(Clone, Copy)]
pub struct NumberedStarted<'a> {
    pub kind: u8,
    pub write: u8,
    pub write_len: u16,
    pub read_len: u16,
    pub pool: &'a [u8],
}

impl fmt::Display for NumberedStarted<'_> {
    ghost output = { λ t. Some (numbered_text t.kind t.write t.write_len t.read_len t.pool.now) };

    fn fmt<W: fmt::Write>(&self, f: &mut fmt::Formatter<W>) -> fmt::Result {
        if self.kind == 0 {
            return Ok(());
        }
        let sent = part(self.pool, usize::from(self.write) * 160, self.write_len);
        write!(
            f,
            "transfer {} {} {}{}",
            self.kind,
            self.write_len,
            self.read_len,
            Fields(sent)
        )
    }
}

// The line of an action.
#[derive(Clone, Copy)]
pub struct Act(pub Action);

impl fmt::Display for Act {
    ghost output = { λ act. Some (action_text act.0) };

    fn fmt<W: fmt::Write>(&self, f: &mut fmt::Formatter<W>) -> fmt::Result {
        match self.0 {
            Action::Nothing => Ok(()),
            Action::Power(on) => write!(f, "power {}", Flag(on)),
            Action::Sent(buffer, ack, fail) => {
                write!(f, "sent {buffer} {} {}", Flag(ack), Flag(fail))
            }
            Action::Received(buffer, length, crc) => {
                write!(f, "received {buffer} {length} {}", Flag(crc))
            }
            Action::ConfigDone => f.write_str("config_done"),
            Action::Dropped(buffer) => write!(f, "dropped {buffer}"),
            Action::IrqMakeInput => f.write_str("irq make_input"),
            Action::IrqClear => f.write_str("irq clear"),
            Action::IrqSetFloatingState => f.write_str("irq set_floating_state"),
            Action::IrqEnableInterrupts => f.write_str("irq enable_interrupts"),
            Action::IrqDisableInterrupts => f.write_str("irq disable_interrupts"),
            Action::SleepMakeOutput => f.write_str("sleep make_output"),
            Action::SleepSet => f.write_str("sleep set"),
            Action::SleepClear => f.write_str("sleep clear"),
            Action::ResetMakeOutput => f.write_str("reset make_output"),
            Action::ResetClear(count) => write!(f, "reset clear {count}"),
            Action::ResetSet => f.write_str("reset set"),
        }
    }
}

// `value N...`: what a call returns, of those that return a value.
#[derive(Clone, Copy)]
pub enum Value {
    Number(u16),
    Flag(bool),
    Power(i8),
    Address([u8; 8]),
}

impl fmt::Display for Value {
    ghost output = { λ value. Some (value_text value) };

    fn fmt<W: fmt::Write>(&self, f: &mut fmt::Formatter<W>) -> fmt::Result {
        match self {
            Value::Number(number) => write!(f, "value {number}"),
            Value::Flag(flag) => write!(f, "value {}", Flag(*flag)),
            Value::Power(power) => write!(f, "value {power}"),
            Value::Address(bytes) => write!(f, "value{}", Fields(bytes)),
        }
    }
}
