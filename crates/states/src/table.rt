// The table: a line for each state and outcome of a completion; then interrupts, firings and calls, each with what it does in most states
// and the states where it does something else.
use crate::actions::ActionColumn;
use crate::columns::Step;
use crate::same::{CONDITIONS, Completions, exception, general};
use crate::situation::{calls, calls_in_transfer, calls_waiting, interrupts};
use crate::state::{Numbered, STATES};
use crate::text::text;
use std::io;
use std::io::Write;

// What is said above the completions: what the plain one is, and how a line differs from it.
const ABOUT_COMPLETIONS: &str =
    "COMPLETIONS. The plain one (-) has status RX_AACK_ON, result 0, held length 20, every listener, and no \
    flag but the state's own; from READY on\nthe radio is on, but for sleep. Another line differs from it in what its condition names. \
    Every condition is tried in every state, but in 65 to\n68 no held length of 10 or 128, which 12 describes: one that has no \
    line does as the plain one, or as an earlier line. A step passes through 62\nand 66; their lines are what it does there. spoiled \
    is the mark of a frame whose second length byte is not the held length; it is listed with the\nflags. Settings: address 0xABCD, \
    PAN 0x1234, long address 1 to 8, power 0, channel 26.";

// What is said above the interrupts and calls: how to read them, and what holds when they come.
const ABOUT_EVENTS: &str =
    "INTERRUPTS AND CALLS: what each does in every other state, where that is one thing, and the states where it \
    does another.\nIRQ_ is a completion of the read of IRQ_STATUS that shows that interrupt; where no line says more, a state does as if \
    none were shown. In 34, 63\nand 65 a frame transfer is under way, so that IRQ_STATUS is not being read there; 62, 64 and 68 have the \
    receive buffer, so that empty_line is\nnot said of them. Firings and calls come while no register transfer is under way; or \
    in_transfer; or waiting: a read of TRX_STATUS, in 34, 63\nand 65 the frame transfer, waits since it was declined. The radio is on, no \
    other flag is set, and a buffer is held only where the state takes\none.";

// The names of the columns.
const HEADING: [&str; 6] = [
    "state",
    "condition",
    "next state",
    "transfer",
    "flags set (+) and cleared (-)",
    "actions",
];

// A line of six columns.
fn write_line(to: &mut impl Write, columns: [&str; 6]) -> io::Result<()> {
    let [state, condition, next, deed, flags, actions] = columns;
    writeln!(
        to,
        "{state:<29} {condition:<47} {next:<28} {deed:<27}  {flags:<44}  {actions}"
    )
}

// A line with what the step did, in this state or these states, in these conditions.
fn write_step(to: &mut impl Write, states: &str, conditions: &str, step: &Step) -> io::Result<()> {
    let arrow = step.columns.arrow;
    let next = match arrow.next {
        Some(state) => text(&Numbered(state))?,
        None => text(&"stays")?,
    };
    let deed = text(&arrow.deed)?;
    let flags = text(&step.columns.flags)?;
    let actions = text(&ActionColumn(step.columns.actions))?;
    let columns = [
        states,
        conditions,
        next.as_str(),
        deed.as_str(),
        flags.as_str(),
        actions.as_str(),
    ];
    write_line(to, columns)
}

// The lines of the completions of all states.
fn write_completions(to: &mut impl Write) -> io::Result<()> {
    for state in STATES {
        let name = text(&Numbered(state))?;
        let mut completions = Completions::new();
        completions.fill(state, |columns| columns);
        for place in 0..CONDITIONS {
            if let Some(case) = completions.case(place) {
                write_step(to, name.as_str(), text(&case)?.as_str(), case.step)?;
            }
        }
    }
    Ok(())
}

// The lines of interrupts, firings and calls: what each does in most states, where it does something of its own there, and the exceptions.
fn write_events(to: &mut impl Write) -> io::Result<()> {
    for event in interrupts()
        .into_iter()
        .chain(calls())
        .chain(calls_in_transfer())
        .chain(calls_waiting())
    {
        if let Some(step) = general(event) {
            write_step(to, "every other state", event.name, &step)?;
        }
        for state in STATES {
            if let Some(step) = exception(state, event) {
                let name = text(&Numbered(state))?;
                write_step(to, name.as_str(), event.name, &step)?;
            }
        }
    }
    Ok(())
}

// The whole table: completions, then interrupts, firings and calls, each part under its text and heading.
pub fn write_table(to: &mut impl Write) -> io::Result<()> {
    writeln!(to, "{ABOUT_COMPLETIONS}\n")?;
    write_line(to, HEADING)?;
    write_completions(to)?;
    writeln!(to, "\n{ABOUT_EVENTS}\n")?;
    write_line(to, HEADING)?;
    write_events(to)
}
