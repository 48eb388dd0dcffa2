// A transfer as it goes out, and the three tests of the record: whether one may begin, whether there is one to complete, and whether one
// waits to be offered again.
ghost use Rattle.std.specs.Prelude.{◌≡◌};
ghost use Rattle.rf233.specs.Transfer.{free_to_start, kind_value, to_complete, to_resume};

use crate::driver::{Buffers, Under};

// Document 01's four kinds of transfer, with their numbers.
#[derive(Clone, Copy, PartialEq, Eq)]
pub enum TransferKind {
    RegisterRead = 1,
    RegisterWrite = 2,
    FrameRead = 3,
    FrameWrite = 4,
}

// The number of each.
impl From<TransferKind> for u8 {
    ghost from_gives = { λ kind n. n ≡ kind_value kind };

    fn from(kind: TransferKind) -> u8 {
        kind as u8
    }
}

// A transfer as it goes out: its kind; the buffer sent from and the buffer read into; the first byte sent; the second byte of a register
// transfer, or a frame transfer's n; the lengths of the two buffers.
#[derive(Clone, Copy)]
pub struct Transfer {
    pub kind: TransferKind,
    pub write: u8,
    pub read: u8,
    pub first: u8,
    pub second: u8,
    pub write_len: u16,
    pub read_len: u16,
}

impl Buffers {
    // A starter may begin a transfer: none is under way, and none waits.
    pub fn free_to_start(self) -> bool
        ensures { result ≡ free_to_start self }
    {
        matches!(self.under, Under::Idle)
    }

    // There is a transfer for a completion to end, or for the SPI layer to decline: one is under way.
    pub(crate) fn to_complete(self) -> bool
        ensures { result ≡ to_complete self }
    {
        !matches!(self.under, Under::Idle | Under::Waits(_))
    }

    // There is a transfer for a resume to offer again: one waits.
    pub(crate) fn to_resume(self) -> bool
        ensures { result ≡ to_resume self }
    {
        matches!(self.under, Under::Waits(_))
    }
}
