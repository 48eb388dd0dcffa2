// One call: made, and written as its lines or as its record.
use crate::run::Run;
use rf233::answer::Reply;
use rf233::driver::Driver;
use rf233::state::InternalState;
use script::line::Line;
use script::report::{Act, Head, Started, Value};
use scripted::recording::event_of;
use std::io;
use std::io::Write;
use trace::record::record;

// The value that the call returns, of those that return one.
fn value(d: Driver, line: Line) -> Option<Value> {
    match line {
        Line::IsOn => Some(Value::Flag(d.is_on())),
        Line::Busy => Some(Value::Flag(d.busy())),
        Line::GetAddress => Some(Value::Number(d.get_address())),
        Line::GetAddressLong => Some(Value::Address(d.get_address_long())),
        Line::GetPan => Some(Value::Number(d.get_pan())),
        Line::GetTxPower => Some(Value::Power(d.get_tx_power())),
        Line::GetChannel => Some(Value::Number(d.get_channel().into())),
        _ => None,
    }
}

// What a call asks for: the transfer that it started, with the bytes that the pool has, and its actions, in order.
fn write_reply<W: Write>(reply: Reply, pool: &[u8], to: &mut W) -> io::Result<()> {
    if let Some(transfer) = reply.transfer {
        writeln!(to, "{}", Started { transfer, pool })?;
    }
    for action in reply.actions.items.iter().take(reply.actions.count.into()) {
        writeln!(to, "{}", Act(*action))?;
    }
    Ok(())
}

impl Run {
    // The lines of a call, in order: its place, answer and states, what it asks for, what it returns, and whether the book found a fault.
    fn write_call<W: Write>(
        &self,
        line: Line,
        from: InternalState,
        reply: Reply,
        to: &mut W,
    ) -> io::Result<()> {
        let driver = self.session.driver;
        writeln!(
            to,
            "{}",
            Head {
                place: self.calls,
                answer: reply.answer,
                from,
                to: driver.state
            }
        )?;
        write_reply(reply, self.session.pool(), to)?;
        if let Some(value) = value(driver, line) {
            writeln!(to, "{value}")?;
        }
        if self.session.book.fault {
            writeln!(to, "fault")?;
        }
        Ok(())
    }

    // One call, with the bytes that its line names.
    pub fn call<W: Write>(&mut self, line: Line, bytes: &[u8], to: &mut W) -> io::Result<()> {
        let before = self.session.driver;
        let done = self.session.make(line, bytes);
        match &mut self.trace {
            None => self.write_call(line, before.state, done.reply, to)?,
            Some(trace) => {
                if let Some(event) = event_of(line, bytes) {
                    trace.put(record(event, before, done), to)?;
                }
            }
        }
        self.calls = self.calls.wrapping_add(1);
        Ok(())
    }
}
