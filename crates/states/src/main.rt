// `states`: the driver's state machine, from the functions that the driver runs: a table, or with `graph` a graph for graphviz.
#![tactic(auto)]

mod actions;
mod columns;
mod deed;
mod graph;
mod run;
mod same;
mod setup;
mod situation;
mod state;
mod table;
mod text;

use arrayvec::ArrayVec;
use std::io;
use std::io::Write;
use stdio::arguments::asked;

// More than the table or the graph has bytes, and little more: either goes out in one write, and the stack holds it beside a state's steps.
const ROOM: usize = 41984;

// Writes the table or the graph.
fn write_states(as_graph: bool, to: &mut impl Write) -> io::Result<()> {
    let mut out = ArrayVec::<u8, ROOM>::new();
    if as_graph {
        graph::write_graph(&mut out)?;
    } else {
        table::write_table(&mut out)?;
    }
    to.write_all(out.as_slice())
}

// Writes what the arguments ask for to standard output, or says how the program is called.
fn main(rt: HostRuntime) -> io::Result<()> {
    let Ok(as_graph) = asked(&rt, b"graph") else {
        return rt.eprintln(
            "usage: states [graph]: the driver's states as a table, or as a graph for graphviz",
        );
    };
    write_states(as_graph, &mut rt.stdout())
}
