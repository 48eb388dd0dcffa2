// Which situations of a state are told apart, and what is said of those that are not.
use crate::columns::{Columns, Step};
use crate::setup::is_possible;
use crate::situation::{
    DIFFERENCES, Kind, NO_INTERRUPT, RESULTS, STATUSES, Situation, differences, results, statuses,
};
use rf233::state::InternalState;
use std::fmt;

// The state that stands for every other one where states are compared.
const ANY: InternalState = InternalState::START_PART_READ;

// How many conditions of a completion there are.
pub const CONDITIONS: usize = STATUSES + RESULTS + DIFFERENCES;

// What a state's step did in a condition, and the place of the first condition in which it did the same.
#[derive(Clone, Copy)]
struct Tried {
    step: Step,
    first: usize,
}

// The steps of a state's completions, in the order of the conditions, and none in a condition that is not tried there.
#[derive(Clone, Copy)]
pub struct Completions([Option<Tried>; CONDITIONS]);

// What a state's step did in the condition at a place, which is the first one in which it did that, among all that was tried.
#[derive(Clone, Copy)]
pub struct Case<'a> {
    pub step: &'a Step,
    place: usize,
    tried: &'a [Option<Tried>],
}

impl Completions {
    // No step yet.
    pub fn new() -> Completions {
        Completions([None; CONDITIONS])
    }

    // The place of the first step that did the same, where `compared` gives what is compared of its columns.
    fn place_of<K: PartialEq + Drop, F: Fn(Columns) -> K>(
        &self,
        columns: Columns,
        compared: &F,
    ) -> Option<usize>
        requires { F.IsAlwaysCallable compared.now }
    {
        let wanted = compared(columns);
        for (place, tried) in self.0.iter().enumerate() {
            if let Some(tried) = tried
                && compared(tried.step.columns) == wanted
            {
                return Some(place);
            }
        }
        None
    }

    // Takes the steps of the state, where there is none yet: conditions belong to one case where `compared` gives the same of their
    // columns.
    pub fn fill<K: PartialEq + Drop, F: Fn(Columns) -> K>(
        &mut self,
        state: InternalState,
        compared: F,
    )
        requires { F.IsAlwaysCallable compared }
    {
        let all = statuses().into_iter().chain(results()).chain(differences());
        for (place, condition) in all.enumerate() {
            if is_possible(state, &condition) {
                let step = Step::of(state, condition);
                let before = self.place_of(step.columns, &compared);
                let first = before.unwrap_or(place);
                if let Some(free) = self.0.get_mut(place) {
                    *free = Some(Tried { step, first });
                }
            }
        }
    }

    // The case that begins with the condition at this place, if one does.
    pub fn case(&self, place: usize) -> Option<Case<'_>> {
        match self.0.get(place) {
            Some(Some(tried)) if tried.first == place => Some(Case {
                step: &tried.step,
                place,
                tried: &self.0,
            }),
            _ => None,
        }
    }
}

// The names of the condition and of the later ones in which the step did the same. The plain completion and a status with no name are
// listed without the others that do the same, and a condition that names two things is not listed.
impl fmt::Display for Case<'_> {
    fn fmt<W: fmt::Write>(&self, f: &mut fmt::Formatter<W>) -> fmt::Result {
        let situation = self.step.situation;
        write!(f, "{situation}")?;
        if matches!(situation.kind, Kind::Plain | Kind::OtherStatus) {
            return Ok(());
        }
        for (place, tried) in self.tried.iter().enumerate() {
            if let Some(later) = tried
                && self.place < place
                && later.first == self.place
                && later.step.situation.kind != Kind::Two
            {
                write!(f, ", {}", later.step.situation.name)?;
            }
        }
        Ok(())
    }
}

// What the situation does in most states, where it does something of its own there: else it is as if IRQ_STATUS had shown no interrupt.
pub fn general(situation: Situation) -> Option<Step> {
    let any = Step::of(ANY, situation);
    let silent = Step::of(ANY, NO_INTERRUPT);
    (any.columns != silent.columns).then_some(any)
}

// The step of the state in the situation, where it is not that of most states.
pub fn exception(state: InternalState, situation: Situation) -> Option<Step> {
    let step = Step::of(state, situation);
    let usual = match general(situation) {
        Some(any) => any,
        None => Step::of(state, NO_INTERRUPT),
    };
    let differs = is_possible(state, &situation) && step.columns != usual.columns;
    differs.then_some(step)
}
