// One step of the driver: a state in a situation goes through the call that the kernel or a client makes, over a pool of its own.
use crate::situation::{Call, Situation};
use rf233::answer::Outcome;
use rf233::driver::Driver;

// The status byte of no state.
const NO_STATE: u8 = 0x1E;

// A transfer is complete: these two bytes arrived.
fn completed(driver: Driver, situation: &Situation, pool: &mut [u8; 3040]) -> Outcome {
    let status = situation.status.map_or(NO_STATE, u8::from);
    driver.read_write_done(&[status, situation.result], pool)
}

// What the step of this driver in the situation yields. A frame that is sent has 20 bytes in buffer 0.
pub fn outcome_of(driver: Driver, situation: &Situation) -> Outcome {
    let mut pool = [0u8; 3040];
    match situation.call {
        Call::Completion => completed(driver, situation, &mut pool),
        Call::Firing => driver.fire(&mut pool),
        Call::Start => driver.start(&mut pool),
        Call::Stop => driver.stop(&mut pool),
        Call::Commit => driver.config_commit(&mut pool),
        Call::Transmit => driver.transmit(0, 130, 20, &mut pool),
        Call::ReceiveBuffer => driver.set_receive_buffer(1, 130),
        Call::Reset => driver.reset(true),
        Call::Declined => driver.declined(&mut pool),
        Call::Resume => driver.resume(&mut pool),
    }
}
