// Lists arrays that hold trees of the fixed list, and the answers without a tree; what it writes is
// the Rust's text. A function for each tree of the list: each has arrays of lengths of its own.
#![tactic(auto)]

use ast::Counts;
use lex::Diagnostic;
use listing::{Arrays, Failure};
use std::io;

fn sign(rt: &impl Print) -> io::Result<()> {
    let arrays = Arrays {
        roots: &[0, 2],
        ..with_nodes(&[
            2, 0, 25, 0, 1, 0, 0, 0, 0, 0, 0, 0, 0, 0, 0, 0, 2, 1, 25, 3, 1, 0, 0, 0, 0, 0, 0, 0,
            0, 0, 0, 0, 4, 2, 5, 2, 1, 1, 0, 0, 0, 0, 0, 0, 0, 0, 0, 0,
        ])
    };
    let counts = Counts {
        nodes: 3,
        roots: 2,
        values: 3,
        ..Counts::default()
    };
    list_script::print(rt, Ok(counts), &arrays)
}

// Script 1643 of the fixed list, strict.
fn foreign(rt: &impl Print) -> io::Result<()> {
    let arrays = Arrays {
        nodes: &[
            6, 0, 0, 0, 25, 3, 1, 0, 0, 0, 0, 0, 0, 0, 0, 0, 12, 1, 28, 23, 6, 0, 0, 22, 30, 2, 4,
            1, 0, 0, 0, 0,
        ],
        types: &[
            2, 25, 17, 1, 0, 0, 0, 0, 5, 43, 46, 6, 12, 0, 0, 0, 1, 39, 56, 4, 0, 0, 0, 0,
        ],
        lists: &[25, 43, 1, 1, 0, 0, 25, 39, 1, 0, 1, 2],
        roots: &[0, 1],
        diagnostics: &[0],
    };
    let counts = Counts {
        nodes: 2,
        types: 3,
        cells: 12,
        roots: 2,
        values: 2,
        ..Counts::default()
    };
    list_script::print(rt, Ok(counts), &arrays)
}

// Script 475 of the fixed list, collecting.
fn arms(rt: &impl Print) -> io::Result<()> {
    let arrays = Arrays {
        nodes: &[
            1, 0, 24, 7, 1, 0, 0, 0, 0, 0, 0, 0, 0, 0, 0, 0, 13, 1, 20, 16, 1, 0, 0, 0, 0, 0, 0, 0,
            0, 0, 0, 0, 4, 2, 5, 10, 1, 1, 0, 0, 0, 0, 0, 0, 0, 0, 0, 0, 3, 3, 6, 9, 1, 0, 2, 0, 0,
            0, 0, 0, 0, 0, 0, 0, 7, 4, 0, 1, 20, 21, 1, 0, 0, 0, 0, 0, 0, 0, 0, 0,
        ],
        types: &[0],
        lists: &[24, 7, 1, 3, 0, 0],
        roots: &[4],
        diagnostics: &[34, 11, 5, 0, 0],
    };
    let counts = Counts {
        nodes: 5,
        cells: 6,
        roots: 1,
        values: 5,
        diagnostics: 1,
        ..Counts::default()
    };
    list_script::print(rt, Ok(counts), &arrays)
}

// Script 407 of the fixed list, collecting.
fn docs(rt: &impl Print) -> io::Result<()> {
    let arrays = Arrays {
        nodes: &[
            12, 0, 28, 14, 6, 0, 2, 22, 21, 1, 6, 0, 0, 0, 0, 0, 6, 1, 6, 0, 25, 3, 1, 6, 0, 0, 6,
            1, 0, 0, 0, 0,
        ],
        types: &[1, 39, 6, 4, 0, 0, 0, 0],
        lists: &[26, 7, 0, 26, 11, 0, 0],
        roots: &[1],
        diagnostics: &[33, 10, 1, 0, 36],
    };
    let counts = Counts {
        nodes: 2,
        types: 1,
        cells: 7,
        roots: 1,
        values: 2,
        diagnostics: 1,
    };
    list_script::print(rt, Ok(counts), &arrays)
}

// Arrays that hold nothing else.
fn with_nodes(nodes: &[u32]) -> Arrays<'_> {
    Arrays {
        nodes,
        types: &[0],
        lists: &[0],
        roots: &[0],
        diagnostics: &[0],
    }
}

// An error by its five numbers.
fn print_error(rt: &impl Print, numbers: &[u32; 5]) -> io::Result<()> {
    let failure = Failure::Script(Diagnostic::from(numbers));
    list_script::print(rt, Err(failure), &with_nodes(&[0]))
}

// The same counts with a kind that there is not, and with a node more than the array has.
fn broken(rt: &impl Print, kind: u32, n: u32) -> io::Result<()> {
    let nodes = [2, 0, kind, 0, 1, 0, 0, 0, 0, 0, 0, 0, 0, 0, 0, 0];
    let counts = Counts {
        nodes: n,
        values: 1,
        ..Counts::default()
    };
    list_script::print(rt, Ok(counts), &with_nodes(&nodes))
}

fn main(rt: HostRuntime) -> io::Result<()> {
    sign(&rt)?;
    foreign(&rt)?;
    arms(&rt)?;
    docs(&rt)?;
    print_error(&rt, &[19, 2, 2, 0, 14])?;
    print_error(&rt, &[10, 127, 1, 0, 25])?;
    broken(&rt, 25, 1)?;
    broken(&rt, 44, 1)?;
    broken(&rt, 25, 2)
}
