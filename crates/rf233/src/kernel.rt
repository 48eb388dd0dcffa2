// What the kernel brings: a completion with its arrived bytes, a firing of the interrupt pin, and of a transfer that the SPI layer declined
// the decline and the resume.
ghost use Rattle.std.specs.Prelude.{◌≡◌};
ghost use Rattle.rf233.specs.Kernel.{completion_call, declined_call, fired_call, resume_call};

use crate::answer::{Answer, Outcome, Reply};
use crate::arrived::Arrived;
use crate::driver::Driver;
use crate::pool::copy_arrived;
use rf233_const::status::status_of;

impl Driver {
    // The transfer under way is over, and these bytes arrived.
    #[tactic(auto, unfolding(crate::specs::Kernel::completion_call, crate::specs::Choice::pick, crate::specs::Kernel::completing))]
    pub fn read_write_done(self, arrived: &[u8], pool: &mut [u8]) -> Outcome
        ensures outcome { result ≡ (completion_call self arrived.now pool.old).outcome }
        ensures pool { pool.new ≡ (completion_call self arrived.now pool.old).pool }
    {
        if self.pool_fault(pool.len()) {
            return Outcome::answered(Answer::Pool, self);
        }
        if !self.buffers.to_complete() {
            return Outcome::answered(Answer::Idle, self);
        }
        let n = arrived.len();
        let most = self.buffers.shorter_length() as usize;
        if n < 2 || most < n {
            return Outcome::answered(Answer::Arrived, self);
        }
        copy_arrived(pool, self.buffers.under.read_buffer(), arrived);
        let a = Arrived {
            status: status_of(arrived[0]),
            result: arrived[1],
        };
        self.complete(a).written(pool)
    }

    // The SPI layer declined the transfer under way, which waits now.
    #[tactic(auto, unfolding(crate::specs::Kernel::declined_call, crate::specs::Choice::pick))]
    pub fn declined(self, pool: &mut [u8]) -> Outcome
        ensures outcome { result ≡ (declined_call self pool.old).outcome }
        ensures pool { pool.new ≡ (declined_call self pool.old).pool }
    {
        if self.pool_fault(pool.len()) {
            return Outcome::answered(Answer::Pool, self);
        }
        if !self.buffers.to_complete() {
            return Outcome::answered(Answer::Idle, self);
        }
        Outcome::done(self.declines())
    }

    // The transfer that waits is offered again.
    #[tactic(auto, unfolding(crate::specs::Kernel::resume_call, crate::specs::Choice::pick))]
    pub fn resume(self, pool: &mut [u8]) -> Outcome
        ensures outcome { result ≡ (resume_call self pool.old).outcome }
        ensures pool { pool.new ≡ (resume_call self pool.old).pool }
    {
        if self.pool_fault(pool.len()) {
            return Outcome::answered(Answer::Pool, self);
        }
        if !self.buffers.to_resume() {
            return Outcome::answered(Answer::Nothing, self);
        }
        self.write_length_again(pool);
        self.begun_again().step().written(pool)
    }

    // The firing by value.
    #[tactic(auto, unfolding(crate::specs::Kernel::fired_call, crate::specs::Choice::pick))]
    pub fn fire(self, pool: &mut [u8]) -> Outcome
        ensures outcome { result ≡ (fired_call self pool.old).outcome }
        ensures pool { pool.new ≡ (fired_call self pool.old).pool }
    {
        if self.pool_fault(pool.len()) {
            return Outcome::answered(Answer::Pool, self);
        }
        self.handle_interrupt().written(pool)
    }

    // The driver goes through the step by value, and is stored back where it is.
    pub fn fired(&mut self, pool: &mut [u8]) -> Reply
        ensures reply { result ≡ (fired_call self.old pool.old).outcome.reply }
        ensures driver { self.new ≡ (fired_call self.old pool.old).outcome.driver }
        ensures pool { pool.new ≡ (fired_call self.old pool.old).pool }
    {
        let out = self.fire(pool);
        *self = out.driver;
        out.reply
    }
}
