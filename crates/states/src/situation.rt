// The situations that each state is put in: the conditions of a completion, and then the results of a read of IRQ_STATUS, the firings and
// the calls. Each differs from the plain completion in what its name says.
use rf233::driver::Flags;
use rf233_const::interrupt::InteruptFlags;
use rf233_const::status::ExternalState;
use std::fmt;

// What the kernel or a client calls.
#[derive(Clone, Copy, PartialEq, Eq)]
pub enum Call {
    Completion,
    Firing,
    Start,
    Stop,
    Commit,
    Transmit,
    ReceiveBuffer,
    Reset,
    Declined,
    Resume,
}

// Whether a register transfer is under way, or waits since the SPI layer declined it. In a state that names a frame transfer it is that
// one, and at rest it is under way.
#[derive(Clone, Copy, PartialEq, Eq)]
pub enum Standing {
    Rest,
    UnderWay,
    Waits,
}

// What a situation's name speaks of.
#[derive(Clone, Copy, PartialEq, Eq)]
pub enum Kind {
    // The plain completion.
    Plain,
    // A status that is no state's.
    OtherStatus,
    // The status is this state's.
    Status,
    // The second byte that arrives.
    Result,
    // One thing that differs from the plain completion.
    One,
    // Two such things at once.
    Two,
    // An interrupt, a firing or a call.
    Event,
}

// What a situation may say beside its two bytes and its call. Values, since a closure that alters the situation did not prove: the borrow
// checker does not cover `with` over one.
#[derive(Clone, Copy)]
enum Difference {
    OtherStatus,
    HeldLength(u8),
    Spoiled,
    Transmitting,
    Receiving,
    CrcValid,
    InterruptPending,
    ConfigPending,
    SleepPending,
    WakePending,
    PowerClientPending,
    RadioOff,
    NoListener,
    EmptyLine,
    InTransfer,
    Waiting,
}

// A situation: its name, the call that is made, whether a transfer is under way or waits, the two bytes that arrive (a status that is no
// state's is None), the held length and whether the frame is spoiled, the flags that are set, and what is not there.
#[derive(Clone, Copy)]
pub struct Situation {
    pub kind: Kind,
    pub name: &'static str,
    pub call: Call,
    pub standing: Standing,
    pub status: Option<ExternalState>,
    pub result: u8,
    pub held_length: u8,
    pub spoiled: bool,
    pub flags: Flags,
    pub radio_off: bool,
    pub no_listener: bool,
    pub empty_line: bool,
}

// How many conditions of a completion there are: statuses, with the plain completion, second bytes, and what else may differ.
pub const STATUSES: usize = 14;

pub const RESULTS: usize = 7;

pub const DIFFERENCES: usize = 18;

// No flag is set. A constant cannot call `Flags::default`.
const NO_FLAGS: Flags = Flags {
    radio_on: false,
    transmitting: false,
    receiving: false,
    crc_valid: false,
    interrupt_handling: false,
    interrupt_pending: false,
    config_pending: false,
    sleep_pending: false,
    wake_pending: false,
    power_client_pending: false,
};

// The plain completion: status RX_AACK_ON, result 0, held length 20, not spoiled, all listeners there, no flag set that the state does not
// bring along.
pub const PLAIN: Situation = Situation {
    kind: Kind::Plain,
    name: "-",
    call: Call::Completion,
    standing: Standing::UnderWay,
    status: Some(ExternalState::RX_AACK_ON),
    result: 0,
    held_length: 20,
    spoiled: false,
    flags: NO_FLAGS,
    radio_off: false,
    no_listener: false,
    empty_line: false,
};

// A read of IRQ_STATUS that shows none of the interrupts that a step looks for.
pub const NO_INTERRUPT: Situation = Situation {
    kind: Kind::Event,
    name: "IRQ_none",
    flags: Flags {
        interrupt_handling: true,
        ..NO_FLAGS
    },
    ..PLAIN
};

// The interrupt pin fires while no transfer is under way, unless the state names one.
pub const FIRING: Situation = Situation {
    kind: Kind::Event,
    name: "firing",
    call: Call::Firing,
    standing: Standing::Rest,
    ..PLAIN
};

impl Situation {
    // A completion that is the plain one but for its name.
    fn named(kind: Kind, name: &'static str) -> Situation {
        Situation {
            kind,
            name,
            ..PLAIN
        }
    }

    // The status shows the state.
    fn status(name: &'static str, state: ExternalState) -> Situation {
        Situation {
            status: Some(state),
            ..Situation::named(Kind::Status, name)
        }
    }

    // The second byte that arrives is this one.
    fn result(name: &'static str, second: u8) -> Situation {
        Situation {
            result: second,
            ..Situation::named(Kind::Result, name)
        }
    }

    // A read of IRQ_STATUS shows the interrupt.
    fn interrupt(name: &'static str, shown: InteruptFlags) -> Situation {
        Situation {
            name,
            result: u8::from(shown),
            ..NO_INTERRUPT
        }
    }

    // A firing or a call.
    fn call(name: &'static str, call: Call) -> Situation {
        Situation {
            name,
            call,
            ..FIRING
        }
    }

    // The situation, with one more difference.
    fn with(mut self, difference: Difference) -> Situation {
        match difference {
            Difference::OtherStatus => self.status = None,
            Difference::HeldLength(length) => self.held_length = length,
            Difference::Spoiled => self.spoiled = true,
            Difference::Transmitting => self.flags.transmitting = true,
            Difference::Receiving => self.flags.receiving = true,
            Difference::CrcValid => self.flags.crc_valid = true,
            Difference::InterruptPending => self.flags.interrupt_pending = true,
            Difference::ConfigPending => self.flags.config_pending = true,
            Difference::SleepPending => self.flags.sleep_pending = true,
            Difference::WakePending => self.flags.wake_pending = true,
            Difference::PowerClientPending => self.flags.power_client_pending = true,
            Difference::RadioOff => self.radio_off = true,
            Difference::NoListener => self.no_listener = true,
            Difference::EmptyLine => self.empty_line = true,
            Difference::InTransfer => self.standing = Standing::UnderWay,
            Difference::Waiting => self.standing = Standing::Waits,
        }
        self
    }
}

// The name, with what it is a value of.
impl fmt::Display for Situation {
    fn fmt<W: fmt::Write>(&self, f: &mut fmt::Formatter<W>) -> fmt::Result {
        let value_of = match self.kind {
            Kind::OtherStatus | Kind::Status => "status ",
            Kind::Result => "result ",
            _ => "",
        };
        write!(f, "{value_of}{}", self.name)
    }
}

// The plain completion, and each other status. `.ci/states` holds the names to the code's.
pub fn statuses() -> [Situation; STATUSES] {
    [
        PLAIN,
        Situation::named(Kind::OtherStatus, "other").with(Difference::OtherStatus),
        Situation::status("ON", ExternalState::ON),
        Situation::status("BUSY_RX", ExternalState::BUSY_RX),
        Situation::status("BUSY_TX", ExternalState::BUSY_TX),
        Situation::status("RX_ON", ExternalState::RX_ON),
        Situation::status("TRX_OFF", ExternalState::TRX_OFF),
        Situation::status("PLL_ON", ExternalState::PLL_ON),
        Situation::status("SLEEP", ExternalState::SLEEP),
        Situation::status("PREP_DEEP_SLEEP", ExternalState::PREP_DEEP_SLEEP),
        Situation::status("BUSY_RX_AACK", ExternalState::BUSY_RX_AACK),
        Situation::status("BUSY_TX_ARET", ExternalState::BUSY_TX_ARET),
        Situation::status("TX_ARET_ON", ExternalState::TX_ARET_ON),
        Situation::status(
            "STATE_TRANSITION_IN_PROGRESS",
            ExternalState::STATE_TRANSITION_IN_PROGRESS,
        ),
    ]
}

// The second bytes that a step tells apart; 20 is the held length.
pub fn results() -> [Situation; RESULTS] {
    [
        Situation::result("10", 10),
        Situation::result("11", 11),
        Situation::result("20", 20),
        Situation::result("127", 127),
        Situation::result("128", 128),
        Situation::result("0x20", 0x20),
        Situation::result("0x60", 0x60),
    ]
}

// What else may differ in a completion: a flag, what is not there, what is kept of a reception.
pub fn differences() -> [Situation; DIFFERENCES] {
    let one = Kind::One;
    let two = Kind::Two;
    [
        Situation::named(one, "transmitting").with(Difference::Transmitting),
        Situation::named(one, "receiving").with(Difference::Receiving),
        Situation::named(one, "crc_valid").with(Difference::CrcValid),
        Situation::named(one, "config_pending").with(Difference::ConfigPending),
        Situation::named(one, "sleep_pending").with(Difference::SleepPending),
        Situation::named(one, "wake_pending").with(Difference::WakePending),
        Situation::named(one, "power_client_pending").with(Difference::PowerClientPending),
        Situation::named(one, "radio_off").with(Difference::RadioOff),
        Situation::named(one, "no_listener").with(Difference::NoListener),
        Situation::named(one, "held_length_10").with(Difference::HeldLength(10)),
        Situation::named(one, "held_length_11").with(Difference::HeldLength(11)),
        Situation::named(one, "held_length_127").with(Difference::HeldLength(127)),
        Situation::named(one, "held_length_128").with(Difference::HeldLength(128)),
        Situation::named(one, "spoiled").with(Difference::Spoiled),
        Situation::named(two, "radio_off+no_listener")
            .with(Difference::RadioOff)
            .with(Difference::NoListener),
        Situation::named(two, "transmitting+no_listener")
            .with(Difference::Transmitting)
            .with(Difference::NoListener),
        Situation::named(two, "transmitting+held_length_10")
            .with(Difference::Transmitting)
            .with(Difference::HeldLength(10)),
        Situation::named(two, "transmitting+spoiled")
            .with(Difference::Transmitting)
            .with(Difference::Spoiled),
    ]
}

// The reads of IRQ_STATUS, and an interrupt that waits.
pub fn interrupts() -> [Situation; 10] {
    let lock = InteruptFlags::IRQ_0_PLL_LOCK;
    let start = InteruptFlags::IRQ_2_RX_START;
    let end = InteruptFlags::IRQ_3_TRX_END;
    [
        NO_INTERRUPT,
        Situation::interrupt("IRQ_0_PLL_LOCK", lock),
        Situation::interrupt("IRQ_2_RX_START", start),
        Situation::interrupt("IRQ_3_TRX_END", end),
        Situation::interrupt("IRQ_3_TRX_END+receiving", end).with(Difference::Receiving),
        Situation::interrupt("IRQ_3_TRX_END+receiving+empty_line", end)
            .with(Difference::Receiving)
            .with(Difference::EmptyLine),
        Situation::interrupt("IRQ_3_TRX_END+receiving+empty_line+transmitting", end)
            .with(Difference::Receiving)
            .with(Difference::EmptyLine)
            .with(Difference::Transmitting),
        Situation::interrupt("IRQ_0_PLL_LOCK+interrupt_pending", lock).with(
            Difference::InterruptPending,
        ),
        Situation::interrupt("IRQ_3_TRX_END+interrupt_pending", end).with(
            Difference::InterruptPending,
        ),
        Situation::named(Kind::Event, "interrupt_pending").with(Difference::InterruptPending),
    ]
}

// The firings and calls while no register transfer is under way.
pub fn calls() -> [Situation; 9] {
    [
        FIRING,
        Situation::call("start", Call::Start),
        Situation::call("stop", Call::Stop),
        Situation::call("config_commit", Call::Commit),
        Situation::call("transmit", Call::Transmit),
        Situation::call("set_receive_buffer", Call::ReceiveBuffer),
        Situation::call("reset", Call::Reset),
        Situation::call("declined", Call::Declined),
        Situation::call("resume", Call::Resume),
    ]
}

// The firings and calls while one is under way.
pub fn calls_in_transfer() -> [Situation; 6] {
    [
        Situation::call("firing_in_transfer", Call::Firing).with(Difference::InTransfer),
        Situation::call("start_in_transfer", Call::Start).with(Difference::InTransfer),
        Situation::call("stop_in_transfer", Call::Stop).with(Difference::InTransfer),
        Situation::call("config_commit_in_transfer", Call::Commit).with(Difference::InTransfer),
        Situation::call("declined_in_transfer", Call::Declined).with(Difference::InTransfer),
        Situation::call("resume_in_transfer", Call::Resume).with(Difference::InTransfer),
    ]
}

// What may come while a transfer waits.
pub fn calls_waiting() -> [Situation; 8] {
    [
        Situation::call("firing_waiting", Call::Firing).with(Difference::Waiting),
        Situation::call("start_waiting", Call::Start).with(Difference::Waiting),
        Situation::call("stop_waiting", Call::Stop).with(Difference::Waiting),
        Situation::call("config_commit_waiting", Call::Commit).with(Difference::Waiting),
        Situation::call("transmit_waiting", Call::Transmit).with(Difference::Waiting),
        Situation::call("completion_waiting", Call::Completion).with(Difference::Waiting),
        Situation::call("declined_waiting", Call::Declined).with(Difference::Waiting),
        Situation::call("resume_waiting", Call::Resume).with(Difference::Waiting),
    ]
}
