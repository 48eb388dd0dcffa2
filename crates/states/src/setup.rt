// A driver in a given state and situation. It has the buffers that the state takes, so that refusal 12 does not describe it: transmit
// buffer 0 and receive buffer 1, each 130 bytes long.
use crate::situation::{Call, Situation, Standing};
use crate::state::Group;
use rf233::driver::{Buffers, Clients, Command, Driver, Flags, Lent, Offer, Settings, Under};
use rf233::line::Line;
use rf233::reception::Reception;
use rf233::state::InternalState;

// The same settings in every situation: those that the table's first text names.
const SETTINGS: Settings = Settings {
    addr: 0xABCD,
    addr_long: [1, 2, 3, 4, 5, 6, 7, 8],
    pan: 0x1234,
    tx_power: 0,
    channel: 26,
};

// The transmit buffer.
const TX_BUFFER: Lent = Lent {
    buffer: 0,
    length: 130,
};

// The receive buffer.
const RX_BUFFER: Lent = Lent {
    buffer: 1,
    length: 130,
};

// The frame transfer that the state names, if any.
fn frame_transfer(state: InternalState) -> Option<Under> {
    match state {
        InternalState::TX_WRITING_FRAME => Some(Under::FrameWrite(TX_BUFFER)),
        InternalState::RX_READING_FRAME_LEN | InternalState::RX_READING_FRAME => {
            Some(Under::FrameRead(RX_BUFFER))
        }
        _ => None,
    }
}

// The state takes the receive buffer.
fn takes_rx(state: InternalState) -> bool {
    matches!(
        state,
        InternalState::RX_START_READING
            | InternalState::RX_READING_FRAME_LEN_DONE
            | InternalState::RX_ENABLING_RECEPTION
    )
}

// While a frame is read out and announced the held length is a frame's.
fn is_read_out(state: InternalState) -> bool {
    matches!(
        state,
        InternalState::RX_READING_FRAME
            | InternalState::RX_READING_FRAME_DONE
            | InternalState::RX_READING_FRAME_FCS_DONE
            | InternalState::RX_ENABLING_RECEPTION
    )
}

// A situation that the state can be in: IRQ_STATUS is not read, and nothing is at rest, while a frame transfer is under way; a state that
// takes the receive buffer has it; one in which a frame is read out and announced has its length.
pub fn is_possible(state: InternalState, situation: &Situation) -> bool {
    let reads = situation.flags.interrupt_handling
        || (situation.call == Call::Firing && situation.standing == Standing::Rest);
    !(frame_transfer(state).is_some() && reads)
        && !(takes_rx(state) && situation.empty_line)
        && (!is_read_out(state) || (11..=127).contains(&situation.held_length))
}

// From READY on the radio is on, but for the states of sleep; for a firing or a call it is on in every state.
fn is_on(state: InternalState, situation: &Situation) -> bool {
    let wakes = !matches!(Group::of(state), Group::Startup | Group::Sleep);
    !situation.radio_off && (wakes || situation.call != Call::Completion)
}

// The flags that the state brings along, and those that the situation sets.
fn flags(state: InternalState, situation: &Situation) -> Flags {
    let set = situation.flags;
    let completes = situation.call == Call::Completion;
    let transmits = Group::of(state) == Group::Transmit && !situation.empty_line;
    let commits = Group::of(state) == Group::Commit;
    Flags {
        radio_on: is_on(state, situation),
        transmitting: set.transmitting || (completes && transmits),
        interrupt_handling: set.interrupt_handling && frame_transfer(state).is_none(),
        config_pending: set.config_pending || (completes && commits),
        ..set
    }
}

// Every listener is there, or none is.
fn clients(situation: &Situation) -> Clients {
    let there = !situation.no_listener;
    Clients {
        tx_client: there,
        rx_client: there,
        cfg_client: there,
        power_client: there,
    }
}

// The transfer, once it waits.
fn waiting(under: Under) -> Under {
    match under {
        Under::FrameRead(_) => Under::Waits(Offer::FrameRead),
        Under::FrameWrite(_) => Under::Waits(Offer::FrameWrite),
        _ => Under::Waits(Offer::Register),
    }
}

// The transfer under way or waiting: the state's frame transfer, or a register's.
fn under(state: InternalState, situation: &Situation) -> Under {
    let frame = frame_transfer(state);
    match situation.standing {
        Standing::Rest => frame.unwrap_or(Under::Idle),
        Standing::UnderWay => frame.unwrap_or(Under::Register),
        Standing::Waits => waiting(frame.unwrap_or(Under::Register)),
    }
}

// Buffer 0 where the state or the situation has a frame to send; in TX_WRITING_FRAME the transfer has it, unless that waits.
fn tx_buf(state: InternalState, situation: &Situation) -> Option<Lent> {
    let under = under(state, situation);
    let takes = matches!(
        state,
        InternalState::TX_STATUS_PRECHECK1 | InternalState::TX_RETURN_TO_RX
    );
    let sends = Group::of(state) == Group::Transmit && situation.call == Call::Completion;
    let waits = matches!(under, Under::Waits(Offer::FrameWrite));
    let lent = matches!(under, Under::FrameWrite(_));
    let held = (takes || sends || waits || situation.flags.transmitting) && !lent;
    held.then_some(TX_BUFFER)
}

// Buffer 1 unless the situation is without it and the state does not take it; in the two states of a frame read the transfer has it, unless
// that waits.
fn rx_line(state: InternalState, situation: &Situation) -> Line {
    let under = under(state, situation);
    let there = situation.call == Call::Completion && !situation.empty_line;
    let waits = matches!(under, Under::Waits(Offer::FrameRead));
    let lent = matches!(under, Under::FrameRead(_));
    let held = (takes_rx(state) || there || waits) && !lent;
    if held {
        Line::One(RX_BUFFER)
    } else {
        Line::Empty
    }
}

// The length of spi_buf: while a length or a frame is read, what that read takes; else its whole length.
fn spi_buf_len(state: InternalState, situation: &Situation) -> u16 {
    match state {
        InternalState::RX_READING_FRAME_LEN => 2,
        InternalState::RX_READING_FRAME => u16::from(situation.held_length) + 2,
        _ => 129,
    }
}

// The record of the buffers: those of the transfer under way are out of their places. The register transfer that waits is a read of
// TRX_STATUS.
fn buffers(state: InternalState, situation: &Situation) -> Buffers {
    let under = under(state, situation);
    let register = matches!(under, Under::Register);
    Buffers {
        spi_tx: !register,
        spi_rx: !register,
        spi_buf: !matches!(under, Under::FrameRead(_) | Under::FrameWrite(_)),
        spi_buf_whole: 129,
        spi_buf_len: spi_buf_len(state, situation),
        tx_buf: tx_buf(state, situation),
        rx_line: rx_line(state, situation),
        tx_len: 22,
        under,
        command: Command::Read(0x81, 0),
    }
}

// The driver of the state in the situation.
pub fn driver_in(state: InternalState, situation: &Situation) -> Driver {
    Driver {
        state,
        flags: flags(state, situation),
        clients: clients(situation),
        settings: SETTINGS,
        buffers: buffers(state, situation),
        reception: Reception {
            length: situation.held_length,
            spoiled: situation.spoiled,
        },
    }
}
