// Refusal 12, asked before anything else, and the end of a step: its command bytes are written into the pool. Six calls have both by
// themselves: a function that took the step as a closure would not serve `transmit` and a completion, whose steps need the pool too.
ghost use Rattle.std.specs.Prelude.{◌≡◌, ◌||◌, not, eqb};
ghost use Rattle.rf233.specs.Described.{described};
ghost use Rattle.rf233.specs.Pool.{command_written};

use crate::answer::Outcome;
use crate::driver::Driver;
use crate::pool::write_command;

impl Driver {
    // The pool is not 3,040 bytes long, or the driver value is one that refusal 12 describes.
    pub(crate) fn pool_fault(self, length: usize) -> bool
        ensures { result ≡ (not (eqb length 3040) || described self) }
    {
        length != 3040 || self.is_described()
    }
}

impl Outcome {
    // The step's command bytes are written.
    pub(crate) fn written(self, pool: &mut [u8]) -> Outcome
        ensures outcome { result ≡ self }
        ensures pool { pool.new ≡ command_written self.reply.transfer pool.old }
    {
        write_command(pool, self.reply.transfer);
        self
    }
}
