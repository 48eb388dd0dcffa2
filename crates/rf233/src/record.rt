// The driver's record of its buffers: what a place has, and where a buffer is. Buffers go by document 01's numbers: 0 to 15 are the
// clients', 16, 17 and 18 the driver's own.
ghost use Rattle.std.specs.Prelude.{◌≡◌};
ghost use Rattle.rf233.specs.Record.{buffer_in, own_has, receive_count, record_has, slot_has, under_has};

use crate::driver::{Buffers, Lent, Under};

// The buffer in a place. Where the Rust says `unwrap` for a notice, the place is full (`unwrap_holds` in proofs/FullPlace.antt).
pub fn buffer_in(slot: Option<Lent>) -> u8
    ensures { result ≡ buffer_in slot }
{
    slot.map_or(0, |x| x.buffer)
}

// The place has the buffer.
pub fn slot_has(slot: Option<Lent>, buffer: u8) -> bool
    ensures { result ≡ slot_has slot buffer }
{
    slot.is_some_and(|x| x.buffer == buffer)
}

impl Under {
    // The transfer under way has the buffer; one that waits has none.
    pub(crate) fn has(self, buffer: u8) -> bool
        ensures { result ≡ under_has self buffer }
    {
        match self {
            Under::Idle | Under::Waits(_) => false,
            Under::Register => buffer == 16 || buffer == 17,
            Under::FrameRead(x) | Under::FrameWrite(x) => buffer == 18 || buffer == x.buffer,
        }
    }
}

impl Buffers {
    // It is an own buffer, in its own place.
    pub(crate) fn own_has(self, buffer: u8) -> bool
        ensures { result ≡ own_has self buffer }
    {
        match buffer {
            16 => self.spi_tx,
            17 => self.spi_rx,
            18 => self.spi_buf,
            _ => false,
        }
    }

    // The driver has the buffer, at whichever place.
    #[tactic(auto, unfolding(crate::specs::Record::count_of))]
    pub(crate) fn has(self, buffer: u8) -> bool
        ensures { result ≡ record_has self buffer }
    {
        self.own_has(buffer)
            || slot_has(self.tx_buf, buffer)
            || self.rx_line.has(buffer)
            || self.under.has(buffer)
    }
    // How many receive buffers the driver has, in the line or under way.
    pub(crate) fn receive_count(self) -> usize
        ensures { result ≡ receive_count self }
    {
        self.rx_line.count() + usize::from(matches!(self.under, Under::FrameRead(_)))
    }
}
