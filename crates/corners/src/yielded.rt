// What a step yields, as text: the state that it leads to; `:FIRST.SECOND/LENGTH`, the transfer that it begins, its first byte, its second
// or n, and the length of its read buffer; `+` a notice: p power, s sent with ack and code, r received with length and CRC, c config done,
// d dropped; `!N.` before it a refusal.
use rf233::action::Action;
use rf233::answer::{Answer, Outcome, Reply};
use std::fmt;

// A step: the driver after it, and what it yields.
#[derive(Clone, Copy)]
pub struct Yielded(pub Outcome);

impl fmt::Display for Yielded {
    fn fmt<W: fmt::Write>(&self, f: &mut fmt::Formatter<W>) -> fmt::Result {
        let Outcome { driver, reply } = self.0;
        let Reply {
            answer,
            transfer,
            actions,
        } = reply;
        if answer != Answer::Done {
            write!(f, "!{}.", u8::from(answer))?;
        }
        write!(f, "{}", u8::from(driver.state))?;
        if let Some(t) = transfer {
            write!(f, ":{}.{}/{}", t.first, t.second, t.read_len)?;
        }
        for action in actions.items.iter().take(usize::from(actions.count)) {
            write!(f, "{}", Notice(*action))?;
        }
        Ok(())
    }
}

// An action where it is a notice; what is asked of a pin is not written.
#[derive(Clone, Copy)]
struct Notice(Action);

impl fmt::Display for Notice {
    fn fmt<W: fmt::Write>(&self, f: &mut fmt::Formatter<W>) -> fmt::Result {
        match self.0 {
            Action::Power(on) => write!(f, "+p{}", u8::from(on)),
            Action::Sent(_, ack, code) => write!(f, "+s{}.{}", u8::from(ack), u8::from(code)),
            Action::Received(_, length, crc) => write!(f, "+r{length}.{}", u8::from(crc)),
            Action::ConfigDone => write!(f, "+c"),
            Action::Dropped(buffer) => write!(f, "+d{buffer}"),
            _ => Ok(()),
        }
    }
}
