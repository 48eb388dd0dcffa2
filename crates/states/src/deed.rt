// What a call did at the radio: the transfer that it started, or what refused it.
use record_words::names::{answer_name, register_name, transfer_name};
use rf233::answer::{Answer, Reply};
use rf233::transfer::{Transfer, TransferKind};
use rf233_const::register::RF233Register;
use rf233_const::trx_state::RF233TrxCmd;
use std::fmt;

// What is said of a transfer beside its kind.
#[derive(Clone, Copy, PartialEq, Eq)]
pub enum Subject {
    // The register that is read.
    Register(u8),
    // The register that is written, and the value.
    Value(u8, u8),
    // A frame transfer's n.
    Count(u8),
    // The n of a frame read is the length that is held after the step.
    Length,
}

// A transfer that was started.
#[derive(Clone, Copy, PartialEq, Eq)]
pub struct Started {
    kind: TransferKind,
    subject: Subject,
}

// The transfer that was started, if any, or the refusal.
#[derive(Clone, Copy, PartialEq, Eq)]
pub struct Deed(Result<Option<Started>, Answer>);

// The commands to the radio by name.
const COMMANDS: [(RF233TrxCmd, &str); 6] = [
    (RF233TrxCmd::TX_START, "TX_START"),
    (RF233TrxCmd::RX_ON, "RX_ON"),
    (RF233TrxCmd::OFF, "OFF"),
    (RF233TrxCmd::PLL_ON, "PLL_ON"),
    (RF233TrxCmd::RX_AACK_ON, "RX_AACK_ON"),
    (RF233TrxCmd::TX_ARET_ON, "TX_ARET_ON"),
];

impl Started {
    // What is said of the transfer of a step after which this length is held.
    fn of(transfer: Transfer, held: u8) -> Started {
        let register = transfer.first % 64;
        let second = transfer.second;
        let subject = match transfer.kind {
            TransferKind::RegisterRead => Subject::Register(register),
            TransferKind::RegisterWrite => Subject::Value(register, second),
            TransferKind::FrameRead if 0 < held && second == held => Subject::Length,
            TransferKind::FrameRead | TransferKind::FrameWrite => Subject::Count(second),
        };
        Started {
            kind: transfer.kind,
            subject,
        }
    }
}

impl Deed {
    // What is said of the reply to a call after which this length is held.
    pub fn of(reply: Reply, held: u8) -> Deed {
        if reply.answer != Answer::Done {
            return Deed(Err(reply.answer));
        }
        let started = reply.transfer.map(|transfer| Started::of(transfer, held));
        Deed(Ok(started))
    }

    // A transfer was started.
    pub fn is_transfer(self) -> bool {
        matches!(self.0, Ok(Some(_)))
    }
}

// The name of the command that a byte is, if any.
fn command_name(value: u8) -> Option<&'static str> {
    COMMANDS
        .iter()
        .find(|(command, _)| u8::from(*command) == value)
        .map(|(_, name)| *name)
}

// A value that is written is a command, if it is written to TRX_STATE.
impl fmt::Display for Subject {
    fn fmt<W: fmt::Write>(&self, f: &mut fmt::Formatter<W>) -> fmt::Result {
        match *self {
            Subject::Register(register) => f.write_str(register_name(register)),
            Subject::Value(register, value) => {
                let name = register_name(register);
                match command_name(value) {
                    Some(command) if register == u8::from(RF233Register::TRX_STATE) => {
                        write!(f, "{name} {command}")
                    }
                    _ => write!(f, "{name} 0x{value:02x}"),
                }
            }
            Subject::Count(n) => write!(f, "{n}"),
            Subject::Length => f.write_str("length"),
        }
    }
}

// What the transfer does, and its register or its n.
impl fmt::Display for Started {
    fn fmt<W: fmt::Write>(&self, f: &mut fmt::Formatter<W>) -> fmt::Result {
        let name = transfer_name(u8::from(self.kind));
        write!(f, "{name} {}", self.subject)
    }
}

// The transfer, or a dash where there is none, or the refusal by number and name.
impl fmt::Display for Deed {
    fn fmt<W: fmt::Write>(&self, f: &mut fmt::Formatter<W>) -> fmt::Result {
        match self.0 {
            Ok(Some(started)) => write!(f, "{started}"),
            Ok(None) => f.write_str("-"),
            Err(answer) => {
                let number = u8::from(answer);
                let name = answer_name(number);
                write!(f, "refused {number} {name}")
            }
        }
    }
}
