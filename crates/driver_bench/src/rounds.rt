// A scenario: one driver through lists of events, round by round.
use crate::digest::Digest;
use rf233::driver::Driver;
use scenario::event::Event;
use scenario::events::Events;

// A driver, and the digest of what its steps have yielded so far.
#[derive(Clone, Copy)]
struct Run {
    driver: Driver,
    digest: Digest,
}

impl Run {
    // Makes the event, and mixes its transfer and its notices into the digest. Most events are completions: they go to their call past the
    // choice among all calls, which the compiler would join with it, at some 30 instructions a step more. A run that is altered behind a
    // reference in place of going by value takes 90 more.
    fn step(self, event: Event, pool: &mut [u8]) -> Run {
        let out = match event {
            Event::Completion(arrived) => self.driver.read_write_done(arrived, pool),
            other => other.make(self.driver, pool),
        };
        Run {
            driver: out.driver,
            digest: self.digest.after(out.reply, pool),
        }
    }

    // The events, one after another.
    fn round(mut self, events: &[u8], pool: &mut [u8]) -> Run {
        for event in Events(events) {
            self = self.step(event, pool);
        }
        self
    }
}

// The digest of a new driver, with 129 bytes of spi_buf and channel 26, that goes through `setup` once and through `events` so many times.
pub fn run_scenario(setup: &[u8], events: &[u8], rounds: u32, pool: &mut [u8]) -> Digest {
    let first = Run {
        driver: Driver::new(129, 26).driver,
        digest: Digest::default(),
    };
    let mut run = first.round(setup, pool);
    for _ in 0..rounds {
        run = run.round(events, pool);
    }
    run.digest
}
