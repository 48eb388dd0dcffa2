// The lent pool of 19 buffers of 160 bytes: command bytes are written into it, arrived bytes are copied into it.
ghost use Rattle.std.specs.Prelude.{◌≡◌, ◌*◌, ◌+◌, ◌++◌, ◌≤◌, drop, length, set};
ghost use Rattle.rf233.specs.Pool.{command_written, copied, read_buffer, shorter};

use crate::driver::{Buffers, Under};
use crate::transfer::{Transfer, TransferKind};

// Writes one byte, where the pool reaches that far. A test and an index: with `get_mut` the proof did not close.
fn put(pool: &mut [u8], at: usize, byte: u8)
    ensures { pool.new ≡ set pool.old at byte }
{
    if at < pool.len() {
        pool[at] = byte;
    }
}

// Writes byte 1 of a client's buffer.
pub fn put_length(pool: &mut [u8], buffer: u8, byte: u8)
    ensures { pool.new ≡ set pool.old (buffer * 160 + 1) byte }
{
    put(pool, buffer as usize * 160 + 1, byte);
}

// Writes the command bytes of a transfer, where there is one.
#[tactic(auto, unfolding(crate::specs::Pool::command_written, crate::specs::Choice::pick))]
pub fn write_command(pool: &mut [u8], transfer: Option<Transfer>)
    ensures { pool.new ≡ command_written transfer pool.old }
{
    let Some(t) = transfer else {
        return;
    };
    let at = t.write as usize * 160;
    put(pool, at, t.first);
    match t.kind {
        TransferKind::RegisterRead | TransferKind::RegisterWrite => put(pool, at + 1, t.second),
        TransferKind::FrameRead | TransferKind::FrameWrite => (),
    }
}

// Copies bytes into the beginning of others. Document 01 has a part of the pool lent to a copying function.
fn copy(from: &[u8], to: &mut [u8])
    requires { length from.now ≤ length to.old }
    ensures { to.new ≡ from.now ++ drop (length from.now) to.old }
{
    to[..from.len()].copy_from_slice(from);
}

// Copies the arrived bytes into the beginning of a buffer's part of the pool.
pub fn copy_arrived(pool: &mut [u8], buffer: u8, arrived: &[u8])
    requires fits { length arrived.now ≤ 160 }
    requires in_pool { buffer * 160 + 160 ≤ length pool.old }
    ensures { pool.new ≡ copied buffer arrived.now pool.old }
{
    let start = buffer as usize * 160;
    let end = start + 160;
    copy(arrived, &mut pool[start..end]);
}

impl Under {
    // The buffer that the transfer under way reads into.
    pub(crate) fn read_buffer(self) -> u8
        ensures { result ≡ read_buffer self }
    {
        match self {
            Under::Idle | Under::Register | Under::Waits(_) => 17,
            Under::FrameRead(x) => x.buffer,
            Under::FrameWrite(_) => 18,
        }
    }
}

impl Buffers {
    // The shorter length of the transfer under way, write length or read length.
    pub(crate) fn shorter_length(self) -> u16
        ensures { result ≡ shorter self }
    {
        match self.under {
            Under::Idle | Under::Waits(_) => 0,
            Under::Register => 2,
            Under::FrameRead(x) => self.spi_buf_len.min(u16::from(x.length)),
            Under::FrameWrite(_) => (u16::from(self.tx_len) + 2).min(self.spi_buf_len),
        }
    }
}
