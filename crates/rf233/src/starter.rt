// The four transfer starters, and what each says: that it began, or found a transfer under way, or one waiting. Nothing else starts a
// transfer.
ghost use Rattle.std.specs.Prelude.{◌≡◌};
ghost use Rattle.rf233.specs.Starter.{
  begun,
  command_of,
  found,
  frame_read,
  frame_write,
  refrains,
  register_read,
  register_transfer,
  register_write,
};

use crate::driver::{Command, Driver, Under};
use crate::transfer::{Transfer, TransferKind};
use rf233_const::command::{
    frame_read_command, frame_write_command, register_read_command, register_write_command,
};
use rf233_const::register::RF233Register;

// A starter's answer: it began this transfer, or found one under way, or one that waits. One that lacks a buffer, which 12 describes,
// answers as if one were under way.
#[derive(Clone, Copy)]
pub enum StarterAnswer {
    Began(Transfer),
    UnderWay,
    Waiting,
}

impl StarterAnswer {
    // The transfer that goes out by the answer: the one that began, or none.
    pub fn transfer(self) -> Option<Transfer>
        ensures { result ≡ begun self }
    {
        match self {
            StarterAnswer::Began(transfer) => Some(transfer),
            StarterAnswer::UnderWay | StarterAnswer::Waiting => None,
        }
    }
}

impl Command {
    // What is kept of a register transfer.
    fn of(kind: TransferKind, first: u8, second: u8) -> Command
        ensures { result ≡ command_of kind first second }
    {
        match kind {
            TransferKind::RegisterWrite => Command::Write(first, second),
            _ => Command::Read(first, second),
        }
    }
}

impl Under {
    // What a starter found that does not begin.
    fn found(self) -> StarterAnswer
        ensures { result ≡ found self }
    {
        match self {
            Under::Waits(_) => StarterAnswer::Waiting,
            _ => StarterAnswer::UnderWay,
        }
    }
}

// A starter's answer, and the driver after it.
#[derive(Clone, Copy)]
pub struct Started {
    pub answer: StarterAnswer,
    pub driver: Driver,
}

impl Driver {
    // Nothing begins. Apart and cold: where it is a branch of the starter, the compiler chooses each field of the driver between the two
    // ends, and a step takes 8 in 100 instructions more (measured).
    #[cold]
    #[inline(never)]
    pub(crate) fn refrain(self) -> Started
        ensures { result ≡ refrains self }
    {
        Started {
            answer: self.buffers.under.found(),
            driver: self,
        }
    }

    // A register transfer with these two bytes, which the driver keeps.
    #[tactic(auto, unfolding(crate::specs::Starter::register_transfer, crate::specs::Choice::pick))]
    pub(crate) fn register_transfer(mut self, kind: TransferKind, first: u8, second: u8) -> Started
        ensures { result ≡ register_transfer kind first second self }
    {
        if !(self.buffers.free_to_start() && self.buffers.spi_tx && self.buffers.spi_rx) {
            return self.refrain();
        }
        self.buffers.spi_tx = false;
        self.buffers.spi_rx = false;
        self.buffers.under = Under::Register;
        self.buffers.command = Command::of(kind, first, second);
        Started {
            answer: StarterAnswer::Began(Transfer {
                kind,
                write: 16,
                read: 17,
                first,
                second,
                write_len: 2,
                read_len: 2,
            }),
            driver: self,
        }
    }

    // A register read.
    pub(crate) fn register_read(self, reg: RF233Register) -> Started
        ensures { result ≡ register_read reg self }
    {
        self.register_transfer(TransferKind::RegisterRead, register_read_command(reg), 0)
    }

    // A register write.
    pub(crate) fn register_write(self, reg: RF233Register, val: u8) -> Started
        ensures { result ≡ register_write reg val self }
    {
        self.register_transfer(
            TransferKind::RegisterWrite,
            register_write_command(reg),
            val,
        )
    }

    // A frame read of n bytes into the buffer at the front of the line, unless none may begin now or buffer 18 is missing. A step that asks
    // for one finds the buffer there (`unwrap_holds` in proofs/FullPlace.antt).
    #[tactic(auto, unfolding(crate::specs::Starter::frame_read_into, crate::specs::Choice::pick))]
    pub(crate) fn frame_read(mut self, n: u8) -> Started
        ensures { result ≡ frame_read n self }
    {
        let Some(x) = self.buffers.rx_line.front() else {
            return self.refrain();
        };
        if !(self.buffers.free_to_start() && self.buffers.spi_buf) {
            return self.refrain();
        }
        let write_len = u16::from(n) + 2;
        self.buffers.spi_buf = false;
        self.buffers.spi_buf_len = write_len;
        self.buffers.rx_line = self.buffers.rx_line.behind();
        self.buffers.under = Under::FrameRead(x);
        Started {
            answer: StarterAnswer::Began(Transfer {
                kind: TransferKind::FrameRead,
                write: 18,
                read: x.buffer,
                first: frame_read_command(),
                second: n,
                write_len,
                read_len: u16::from(x.length),
            }),
            driver: self,
        }
    }

    // A frame write of the transmit buffer, whose n `transmit` left in the driver, unless none may begin now or buffer 18 is missing. A
    // step that asks for one finds the buffer held, likewise.
    #[tactic(auto, unfolding(crate::specs::Starter::frame_write_from, crate::specs::Choice::pick))]
    pub(crate) fn frame_write(mut self) -> Started
        ensures { result ≡ frame_write self }
    {
        let Some(x) = self.buffers.tx_buf else {
            return self.refrain();
        };
        if !(self.buffers.free_to_start() && self.buffers.spi_buf) {
            return self.refrain();
        }
        self.buffers.spi_buf = false;
        self.buffers.tx_buf = None;
        self.buffers.under = Under::FrameWrite(x);
        Started {
            answer: StarterAnswer::Began(Transfer {
                kind: TransferKind::FrameWrite,
                write: x.buffer,
                read: 18,
                first: frame_write_command(),
                second: self.buffers.tx_len,
                write_len: u16::from(self.buffers.tx_len) + 2,
                read_len: self.buffers.spi_buf_len,
            }),
            driver: self,
        }
    }
}
