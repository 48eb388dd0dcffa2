// When the SPI layer declines a transfer: its buffers return and it waits, and a resume offers it again.
ghost use Rattle.std.specs.Prelude.{◌≡◌};
ghost use Rattle.rf233.specs.Decline.{again, begun_again, declines, length_again, waiting};

use crate::driver::{Command, Driver, Offer, Under};
use crate::pool::put_length;
use crate::record::buffer_in;
use crate::starter::Started;
use crate::transfer::TransferKind;

impl Under {
    // The transfer under way, once it waits.
    fn waiting(self) -> Under
        ensures { result ≡ waiting self }
    {
        match self {
            Under::Idle => Under::Idle,
            Under::Register => Under::Waits(Offer::Register),
            Under::FrameRead(_) => Under::Waits(Offer::FrameRead),
            Under::FrameWrite(_) => Under::Waits(Offer::FrameWrite),
            Under::Waits(offer) => Under::Waits(offer),
        }
    }
}

impl Driver {
    // The driver with the transfer under way declined.
    pub(crate) fn declines(mut self) -> Driver
        ensures { result ≡ declines self }
    {
        self.buffers = self.buffers.back(self.buffers.under.waiting());
        self
    }

    // The transfer that waited begins, on the driver in which it waits no more.
    fn again(self, under: Under) -> Started
        ensures { result ≡ again under self }
    {
        match under {
            Under::Waits(Offer::Register) => match self.buffers.command {
                Command::Read(first, second) => {
                    self.register_transfer(TransferKind::RegisterRead, first, second)
                }
                Command::Write(first, second) => {
                    self.register_transfer(TransferKind::RegisterWrite, first, second)
                }
            },
            Under::Waits(Offer::FrameRead) => {
                self.frame_read((self.buffers.spi_buf_len.saturating_sub(2) % 256) as u8)
            }
            Under::Waits(Offer::FrameWrite) => self.frame_write(),
            _ => self.refrain(),
        }
    }

    // The transfer that waits is offered again.
    pub(crate) fn begun_again(mut self) -> Started
        ensures { result ≡ begun_again self }
    {
        let under = self.buffers.under;
        self.buffers.under = Under::Idle;
        self.again(under)
    }

    // The n of a frame write that waits is written into byte 1 of its buffer, as `transmit` did.
    pub(crate) fn write_length_again(self, pool: &mut [u8])
        ensures { pool.new ≡ length_again self.buffers pool.old }
    {
        if let Under::Waits(Offer::FrameWrite) = self.buffers.under {
            put_length(pool, buffer_in(self.buffers.tx_buf), self.buffers.tx_len);
        }
    }
}
