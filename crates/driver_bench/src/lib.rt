// Whole scenarios on one driver, for C or Rust to call: events as bytes in, a digest of all that was sent and told out.
#![tactic(auto)]

mod digest;
mod rounds;

use rounds::run_scenario;

// A new driver; the events of `setup` once, then those of `events`, `rounds` times. The digest is of every byte sent, the lengths of the
// read buffers and every notice. A completion that is cut short ends its list; a byte that is no event's number is passed over.
#[unsafe(no_mangle)]
pub extern "C" fn rf233_run(setup: &[u8], events: &[u8], rounds: u32, pool: &mut [u8]) -> u64 {
    run_scenario(setup, events, rounds, pool).value()
}
