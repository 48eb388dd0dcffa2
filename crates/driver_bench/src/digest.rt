// A digest of what a driver sends and tells: each byte is mixed in by a rotation and an exclusive or.
use rf233::action::{Action, Actions};
use rf233::answer::Reply;
use rf233::transfer::Transfer;

// Of the bytes sent, and of the notices, apart: the order of the two within a step is left open. Both are 0 before anything is mixed in.
#[derive(Clone, Copy, Default)]
pub struct Digest {
    sent: u64,
    told: u64,
}

impl Digest {
    // The two digests as one number, that of the notices shifted by one bit.
    pub fn value(self) -> u64 {
        self.sent ^ (self.told << 1)
    }

    // The digest after a step: its transfer goes into `sent`, its notices go into `told`.
    pub fn after(self, reply: Reply, pool: &[u8]) -> Digest {
        Digest {
            sent: reply
                .transfer
                .map_or(self.sent, |t| mix_transfer(self.sent, t, pool)),
            told: mix_actions(self.told, reply.actions),
        }
    }
}

// One byte: the digest is rotated left by seven bits, and the byte goes in by an exclusive or.
fn mix(d: u64, byte: u8) -> u64 {
    d.rotate_left(7) ^ u64::from(byte)
}

// A flag, as the byte 1 or 0.
fn mix_flag(d: u64, flag: bool) -> u64 {
    mix(d, u8::from(flag))
}

// The read buffer's length and the bytes sent, where the pool has them.
fn mix_transfer(d: u64, t: Transfer, pool: &[u8]) -> u64 {
    let start = usize::from(t.write) * 160;
    match pool.get(start..start + usize::from(t.write_len)) {
        Some(sent) => sent
            .iter()
            .fold(mix(d, (t.read_len % 256) as u8), |d, b| mix(d, *b)),
        None => d,
    }
}

// A notice's number and its values; `Dropped` and what is asked of a pin are left out.
fn mix_action(d: u64, action: Action) -> u64 {
    match action {
        Action::Power(on) => mix_flag(mix(d, 1), on),
        Action::Sent(buffer, ack, fail) => mix_flag(mix_flag(mix(mix(d, 2), buffer), ack), fail),
        Action::Received(buffer, length, crc) => mix_flag(mix(mix(mix(d, 3), buffer), length), crc),
        Action::ConfigDone => mix(d, 4),
        _ => d,
    }
}

// The actions up to their count, in order.
fn mix_actions(d: u64, actions: Actions) -> u64 {
    actions
        .items
        .iter()
        .take(usize::from(actions.count))
        .fold(d, |d, action| mix_action(d, *action))
}
