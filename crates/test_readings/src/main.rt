// Readings on lent arrays that are exactly long enough, one cell short, and longer, all full of
// rubbish. The cases come from standard input, as tools/cases writes them: a name, the mode, the
// lengths of the five arrays, the script. Printed are the answer and every cell of the arrays.
// proofs/Examples.antt has what the definitions say.
#![tactic(auto)]

ghost use Rattle.std.specs.Prelude.{◌≤◌, length};

use ast::lent::CELLS_PER_BYTE;
use ast::{DIAGNOSTIC_WIDTH, Node, Parsed, ReadError, TypeExpr};
use console::frames::{
    MAX_CASES, ReadError as CaseError, each_case, print_name, read_script, read_up_to,
};
use parser::{parse, parse_collect};
use std::io;
use std::io::Read;
use tokens::{ERROR_WIDTH, TOKEN_WIDTH};

// One more than a script may have.
const ROOM: usize = 65537;

// What every cell holds before a reading.
const RUBBISH: u32 = u32::MAX;

fn print_parsed(rt: &impl Print, parsed: Parsed) -> io::Result<()> {
    match parsed {
        Ok(c) => {
            print!(rt; "tree {} {} {}", c.nodes, c.types, c.cells)?;
            println!(rt; " {} {} {}", c.roots, c.values, c.diagnostics)
        }
        Err(ReadError::Script(d)) => {
            println!(rt;
                "error {} {} {} {} {}",
                d.number, d.start, d.len, d.wanted, d.seen
            )
        }
        Err(ReadError::Refused(refusal)) => println!(rt; "refused {}", u32::from(refusal)),
    }
}

// How many cells there are without those at the end that hold `cell`.
fn length_without(cells: &[u32], cell: u32) -> usize
    ensures { result ≤ length cells.now }
{
    cells
        .iter()
        .rposition(|c| *c != cell)
        .map_or(0, |last| last + 1)
}

// The cells up to the last that is not zero, and how many zeros follow; or that all are as they
// were.
fn print_cells(rt: &impl Print, name: &str, cells: &[u32]) -> io::Result<()> {
    if length_without(cells, RUBBISH) == 0 {
        return println!(rt; "{name}: as it was");
    }
    print!(rt; "{name}")?;
    let n = length_without(cells, 0);
    for cell in &cells[..n] {
        print!(rt; " {cell}")?;
    }
    println!(rt; ", zeros {}", cells.len() - n)
}

// As many cells as the case says.
fn lend<'a>(input: &mut impl Read, cells: &'a mut [u32]) -> io::Result<&'a mut [u32]> {
    let n = read_up_to(input, cells.len())?;
    Ok(&mut cells[..n])
}

// The cases' scripts have at most so many bytes, and one of `ROOM` is refused.
const BYTES: usize = 128;

// A reading by `read`, which is one of the entry points of the parser.
fn reading<R>(rt: &impl Print, input: &mut impl Read, read: R) -> io::Result<()>
where
    R: FnOnce(
        &[u8],
        &mut [u32],
        &mut [u32],
        &mut [u32],
        &mut [u32],
        &mut [u32],
        &mut [u32],
        &mut [u32],
    ) -> Parsed,
    requires { R.IsAlwaysCallable read }
{
    let mut script = [b' '; ROOM];
    let mut tokens = [RUBBISH; TOKEN_WIDTH * (BYTES + 1)];
    let mut errors = [RUBBISH; ERROR_WIDTH * BYTES];
    let mut nodes = [RUBBISH; Node::WIDTH * BYTES];
    let mut types = [RUBBISH; TypeExpr::WIDTH * BYTES];
    let mut lists = [RUBBISH; CELLS_PER_BYTE * BYTES];
    let mut roots = [RUBBISH; BYTES];
    let mut diagnostics = [RUBBISH; DIAGNOSTIC_WIDTH * BYTES];
    let nodes = lend(input, &mut nodes)?;
    let types = lend(input, &mut types)?;
    let lists = lend(input, &mut lists)?;
    let roots = lend(input, &mut roots)?;
    let diagnostics = lend(input, &mut diagnostics)?;
    let n = read_script(input, &mut script)?;
    let parsed = read(
        &script[..n],
        &mut tokens,
        &mut errors,
        nodes,
        types,
        lists,
        roots,
        diagnostics,
    );
    print_parsed(rt, parsed)?;
    print_cells(rt, "nodes", nodes)?;
    print_cells(rt, "types", types)?;
    print_cells(rt, "lists", lists)?;
    print_cells(rt, "roots", roots)?;
    print_cells(rt, "diagnostics", diagnostics)
}

// The next case. Answers whether there was one.
fn next_case(rt: &impl Print, input: &mut impl Read) -> Result<bool, CaseError> {
    if !print_name(rt, input)? {
        return Ok(false);
    }
    let collecting = read_up_to(input, 1)? == 1;
    if collecting {
        reading(rt, input, parse_collect)?;
    } else {
        reading(rt, input, parse)?;
    }
    Ok(true)
}

fn main(rt: HostRuntime) -> io::Result<()> {
    let mut input = rt.stdin();
    each_case(&rt, |i| Ok(i < MAX_CASES && next_case(&rt, &mut input)?))
}
