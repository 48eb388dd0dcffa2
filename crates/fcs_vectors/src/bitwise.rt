// The check a second time, one bit after the other. It is written the other way round than in `fcs`, with x^15 at bit 15 of the
// register, so that a generator turned round wrongly there would show here.

// One data bit, the lowest of d: the register moves one place towards x^15, and where what leaves it differs from the bit, the
// generator is taken away.
fn bit_step(r: u16, d: u16) -> u16 {
    let moved = r << 1;
    if (r >> 15) ^ (d & 1) == 1 {
        moved ^ 0x1021
    } else {
        moved
    }
}

// One byte into the register, its bit 0 first.
fn byte_step(r: u16, b: u8) -> u16 {
    (0..8).fold(r, |r, k| bit_step(r, u16::from(b) >> k))
}

// The check of the bytes, from a register of 0 on, with its bits in the order in which `fcs` answers them: x^15 first.
pub fn check(bytes: &[u8]) -> u16 {
    bytes.iter().fold(0, |r, b| byte_step(r, *b)).reverse_bits()
}
