// What a step asks of the pins and tells the listeners: at most six actions, in order.
ghost use Rattle.std.specs.Prelude.{◌≡◌, ◌≤◌, [], ◌∷◌};
ghost use Rattle.rf233.specs.Action.{actions};

// One thing that is asked of a pin or told to a listener.
#[derive(Clone, Copy, PartialEq, Eq)]
pub enum Action {
    // No action: what fills the list past its count. A place of Option<Action> would say the same with a `Some` around each action.
    Nothing,
    // The power listener: whether the radio is on.
    Power(bool),
    // The transmit listener: the buffer handed back, whether it was acknowledged, whether it failed.
    Sent(u8, bool, bool),
    // The receive listener: the buffer handed back, the length received, whether its check was valid.
    Received(u8, u8, bool),
    ConfigDone,
    // A sent buffer with no listener: it is the client's again.
    Dropped(u8),
    IrqMakeInput,
    IrqClear,
    IrqSetFloatingState,
    IrqEnableInterrupts,
    IrqDisableInterrupts,
    SleepMakeOutput,
    SleepSet,
    SleepClear,
    ResetMakeOutput,
    // The reset pin cleared that many times in a row.
    ResetClear(u16),
    ResetSet,
}

// How many actions there are, and six places for them. The count stands beside places of a fixed number: a reply is Copy and goes by value,
// without heap, and the kit's ArrayVec is not Copy.
#[derive(Clone, Copy)]
pub struct Actions {
    pub count: u8,
    pub items: [Action; 6],
}

impl Actions {
    // The empty list.
    pub fn none() -> Actions
        ensures { result ≡ actions [] }
    {
        Actions {
            count: 0,
            items: [Action::Nothing; 6],
        }
    }

    // The list of these actions; past them stands `Nothing`.
    pub(crate) fn of<const N: usize>(list: [Action; N]) -> Actions
        requires { N ≤ 6 }
        ensures { result ≡ actions list.entry }
    {
        let mut items = [Action::Nothing; 6];
        items[..N].copy_from_slice(&list);
        Actions {
            count: N as u8,
            items,
        }
    }
}
