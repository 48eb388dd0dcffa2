// What a completion brings to a step.

// The status in the first arrived byte, and the second byte.
#[derive(Clone, Copy)]
pub struct Arrived {
    pub status: u8,
    pub result: u8,
}
