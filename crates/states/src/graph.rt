// The graph, for graphviz: states in six clusters, an arrow for each next state and transfer.
use crate::columns::Step;
use crate::same::{CONDITIONS, Case, Completions, exception, general};
use crate::situation::{Call, FIRING, Kind, PLAIN, Situation, calls, interrupts};
use crate::state::{GROUPS, Group, Numbered, STATES};
use crate::text::text;
use rf233::state::InternalState;
use std::io::Write;
use std::{fmt, io};

// The graph's settings, and the node of what happens in most states.
const HEAD: &str = "digraph states {
  newrank=true; nodesep=0.25; ranksep=0.35; fontname=\"DejaVu Sans\"; fontsize=20;
  node [shape=box, style=rounded, fontname=\"DejaVu Sans\", fontsize=16];
  edge [fontname=\"DejaVu Sans\", fontsize=14];
  any [label=\"every other state\", shape=plaintext];
  { rank=same; any; 29; }
  { rank=same; edge [style=invis]; 0 -> 15 -> 45 -> 30 -> 33 -> 59; }
  any -> 59 [style=invis];";

// What the colours mean.
const FOOT: &str =
    "  labelloc=t; label=\"AT86RF233 driver. Black: a completion, with its condition and the transfer that it starts. Blue: an \
    interrupt. Green: a call. Red: the arrow goes on at that state.\";\n}";

// The group's states in a cluster under its title.
fn write_cluster(to: &mut impl Write, group: Group) -> io::Result<()> {
    writeln!(
        to,
        "  subgraph cluster_{} {{\n    margin=24; label=\"{}\";",
        group as u8,
        group.title()
    )?;
    for state in STATES {
        if Group::of(state) == group {
            writeln!(
                to,
                "    {} [label=\"{}\"];",
                u8::from(state),
                Numbered(state)
            )?;
        }
    }
    writeln!(to, "  }}")
}

// The end of an arrow, and the state where it begins.
#[derive(Clone, Copy)]
struct Ends {
    from: InternalState,
    to: InternalState,
}

impl Ends {
    // An arrow that leads out of its cluster ends at a label with the next state, and so does the one from startup's first column to its
    // second; those from READY are drawn through.
    fn leave(&self) -> bool {
        let group = Group::of(self.from);
        (group != Group::of(self.to) && group != Group::Ready)
            || self.from == InternalState::START_IEEE1_SET
    }

    // An arrow that leads back does not push states apart.
    fn constraint(&self) -> &'static str {
        let back = u8::from(self.to) <= u8::from(self.from);
        if back && !self.leave() {
            ", constraint=false"
        } else {
            ""
        }
    }
}

// The node where the arrow ends: the next state, or the label that names it.
impl fmt::Display for Ends {
    fn fmt<W: fmt::Write>(&self, f: &mut fmt::Formatter<W>) -> fmt::Result {
        let to = u8::from(self.to);
        if self.leave() {
            return write!(f, "to_{}_{to}", u8::from(self.from));
        }
        write!(f, "{to}")
    }
}

// Interrupts are blue, calls green.
fn color(situation: &Situation) -> &'static str {
    match (situation.kind, situation.call) {
        (Kind::Event, Call::Completion | Call::Firing) => ", color=blue, fontcolor=blue",
        (Kind::Event, _) => ", color=darkgreen, fontcolor=darkgreen",
        _ => "",
    }
}

// A plain completion that leads back to its state is drawn on the left: one with a condition is on the right.
fn side(step: &Step) -> &'static str {
    let plain = step.situation.kind == Kind::Plain;
    if plain && step.columns.arrow.next.is_none() {
        ", tailport=w, headport=w"
    } else {
        ""
    }
}

// What is written at an arrow: the conditions, and the transfer, where one starts.
#[derive(Clone, Copy)]
struct Label<'a> {
    conditions: &'a str,
    step: &'a Step,
}

// The plain completion has no name.
impl fmt::Display for Label<'_> {
    fn fmt<W: fmt::Write>(&self, f: &mut fmt::Formatter<W>) -> fmt::Result {
        if self.step.situation.kind != Kind::Plain {
            write!(f, "{}\\n", self.conditions)?;
        }
        let deed = self.step.columns.arrow.deed;
        if deed.is_transfer() {
            write!(f, "{deed}")
        } else {
            Ok(())
        }
    }
}

// The arrow of a step in these conditions, after the label where it ends.
fn write_arrow(to: &mut impl Write, conditions: &str, step: &Step) -> io::Result<()> {
    let ends = Ends {
        from: step.state,
        to: step.end(),
    };
    if ends.leave() {
        let cluster = Group::of(step.state) as u8;
        let next = Numbered(ends.to);
        writeln!(
            to,
            "  subgraph cluster_{cluster} {{ {ends} [shape=plaintext, fontcolor=firebrick, label=\"{next}\"]; }}"
        )?;
    }
    let from = u8::from(ends.from);
    let constraint = ends.constraint();
    let label = Label { conditions, step };
    let color = color(&step.situation);
    let side = side(step);
    writeln!(
        to,
        "  {from} -> {ends} [weight=4{constraint}, label=\"{label}\"{color}{side}];"
    )
}

// The arrow of a case, where it leads to another state, or starts a transfer.
fn write_case(to: &mut impl Write, case: Case) -> io::Result<()> {
    let arrow = case.step.columns.arrow;
    if arrow.next.is_some() || arrow.deed.is_transfer() {
        let names = text(&case)?;
        return write_arrow(to, names.as_str(), case.step);
    }
    Ok(())
}

// The arrows of the completions of all states.
fn write_completions(to: &mut impl Write) -> io::Result<()> {
    for state in STATES {
        let mut completions = Completions::new();
        completions.fill(state, |columns| columns.arrow);
        for place in 0..CONDITIONS {
            if let Some(case) = completions.case(place) {
                write_case(to, case)?;
            }
        }
    }
    Ok(())
}

// What happens in most states leads from a node of its own.
fn write_general(to: &mut impl Write, step: &Step) -> io::Result<()> {
    let end = u8::from(step.end());
    let label = Label {
        conditions: step.situation.name,
        step,
    };
    let color = color(&step.situation);
    writeln!(to, "  any -> {end} [label=\"{label}\"{color}];")
}

// The arrow is there already: it is the plain completion's, or that of the firing that waited.
fn is_drawn(step: &Step) -> bool {
    let waited = step.situation.flags.interrupt_pending;
    step.end() == Step::of(step.state, PLAIN).end()
        || (waited && step.end() == Step::of(step.state, FIRING).end())
}

// The arrow of an exception, where it leads to another state and is not there already.
fn write_exception(to: &mut impl Write, step: &Step) -> io::Result<()> {
    if step.columns.arrow.next.is_none() || is_drawn(step) {
        return Ok(());
    }
    write_arrow(to, step.situation.name, step)
}

// The arrows of interrupts, firings and calls, but for those that come during a register transfer.
fn write_events(to: &mut impl Write) -> io::Result<()> {
    for event in interrupts().into_iter().chain(calls()) {
        if let Some(step) = general(event)
            && step.columns.arrow.next.is_some()
        {
            write_general(to, &step)?;
        }
        for state in STATES {
            if let Some(step) = exception(state, event) {
                write_exception(to, &step)?;
            }
        }
    }
    Ok(())
}

// The whole graph: its settings, the clusters, the arrows and a line that says what the colours mean.
pub fn write_graph(to: &mut impl Write) -> io::Result<()> {
    writeln!(to, "{HEAD}")?;
    for group in GROUPS {
        write_cluster(to, group)?;
    }
    write_completions(to)?;
    write_events(to)?;
    writeln!(to, "{FOOT}")
}
