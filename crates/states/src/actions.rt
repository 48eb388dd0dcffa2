// A step's actions as a column: what it asks of the pins, by pin and what is asked of it, and its notices with their values.
use rf233::action::Action;
use std::fmt;

// An action as it is written, without its buffer.
#[derive(Clone, Copy)]
struct Shown(Action);

impl fmt::Display for Shown {
    fn fmt<W: fmt::Write>(&self, f: &mut fmt::Formatter<W>) -> fmt::Result {
        match self.0 {
            Action::Nothing => Ok(()),
            Action::Power(true) => f.write_str("power(on)"),
            Action::Power(false) => f.write_str("power(off)"),
            Action::Sent(_, _, true) => f.write_str("sent(FAIL)"),
            Action::Sent(_, true, false) => f.write_str("sent(ack)"),
            Action::Sent(_, false, false) => f.write_str("sent(no ack)"),
            Action::Received(_, length, true) => {
                write!(f, "received(length {length}, crc valid)")
            }
            Action::Received(_, length, false) => {
                write!(f, "received(length {length}, crc invalid)")
            }
            Action::ConfigDone => f.write_str("config_done"),
            Action::Dropped(_) => f.write_str("dropped"),
            Action::IrqMakeInput => f.write_str("irq.make_input"),
            Action::IrqClear => f.write_str("irq.clear"),
            Action::IrqSetFloatingState => f.write_str("irq.set_floating_state"),
            Action::IrqEnableInterrupts => f.write_str("irq.enable_interrupts"),
            Action::IrqDisableInterrupts => f.write_str("irq.disable_interrupts"),
            Action::SleepMakeOutput => f.write_str("sleep.make_output"),
            Action::SleepSet => f.write_str("sleep.set"),
            Action::SleepClear => f.write_str("sleep.clear"),
            Action::ResetMakeOutput => f.write_str("reset.make_output"),
            Action::ResetClear(times) => write!(f, "reset.clear({times})"),
            Action::ResetSet => f.write_str("reset.set"),
        }
    }
}

// A step's actions, in order, or a dash.
#[derive(Clone, Copy)]
pub struct ActionColumn(pub [Action; 6]);

impl fmt::Display for ActionColumn {
    fn fmt<W: fmt::Write>(&self, f: &mut fmt::Formatter<W>) -> fmt::Result {
        if self.0.iter().all(|action| *action == Action::Nothing) {
            return f.write_str("-");
        }
        let some = self.0.iter().filter(|action| **action != Action::Nothing);
        f.write_joined(some.map(|action| Shown(*action)), " ")
    }
}
