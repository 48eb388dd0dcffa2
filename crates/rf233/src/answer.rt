// What a call answers: done, or one of document 01's refusals; and what a call yields beside the driver.
ghost use Rattle.std.specs.Prelude.{◌≡◌, []};
ghost use Rattle.rf233.specs.Action.{actions};
ghost use Rattle.rf233.specs.Answer.{answer_no, refused};
ghost use Rattle.rf233.specs.Step.{quiet, with_actions};

use crate::action::Actions;
use crate::driver::Driver;
use crate::transfer::Transfer;

// Document 01's answers, with their numbers: 0, or the refusal's. No Result: `Done` is one of document 01's numbers, and the book has to be
// able to see a refusal that comes with a transfer or an action, which a Result could not say.
#[derive(Clone, Copy, PartialEq, Eq)]
pub enum Answer {
    Done = 0,
    Off = 1,
    Busy = 2,
    Size = 3,
    Long = 4,
    Inval = 5,
    Already = 6,
    Handle = 7,
    Held = 8,
    Short = 9,
    Full = 10,
    Idle = 11,
    Pool = 12,
    Arrived = 13,
    Configure = 14,
    New = 15,
    Nothing = 22,
}

// The number of each.
impl From<Answer> for u8 {
    ghost from_gives = { λ answer n. n ≡ answer_no answer };

    fn from(answer: Answer) -> u8 {
        answer as u8
    }
}

// What a call yields: its answer, the transfer that it started, if any, its actions.
#[derive(Clone, Copy)]
pub struct Reply {
    pub answer: Answer,
    pub transfer: Option<Transfer>,
    pub actions: Actions,
}

// The driver after a call, and what the call yields.
#[derive(Clone, Copy)]
pub struct Outcome {
    pub driver: Driver,
    pub reply: Reply,
}

impl Outcome {
    // This answer alone: no transfer, no actions, the driver as it is given. All refusals are made so.
    pub(crate) fn answered(answer: Answer, driver: Driver) -> Outcome
        ensures { result ≡ refused (answer_no answer) driver }
    {
        Outcome {
            driver,
            reply: Reply {
                answer,
                transfer: None,
                actions: Actions::none(),
            },
        }
    }

    // Done: nothing is started, and nothing is asked for.
    pub fn done(driver: Driver) -> Outcome
        ensures { result ≡ quiet driver (actions []) }
    {
        Outcome::answered(Answer::Done, driver)
    }

    // The same with these actions.
    pub(crate) fn with_actions(mut self, actions: Actions) -> Outcome
        ensures { result ≡ with_actions actions self }
    {
        self.reply.actions = actions;
        self
    }
}
