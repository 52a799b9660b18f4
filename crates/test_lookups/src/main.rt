// Lookups and comparison on arrays made by hand, whole and damaged. The cases come from standard
// input, as tools/cases writes them: a name, which lookup, what is asked about, what is lent. Each
// gives a line: its name and the answer. proofs/Examples.antt has what the definitions say.
#![tactic(auto)]

ghost use Rattle.std.specs.Prelude.{◌≤◌, length, IfOk};

use ast::{Counts, NodeId, Tree, TypeExprId};
use compare::same_shape;
use console::frames::{MAX_CASES, ReadError, each_case, print_name, read_script, read_up_to};
use console::output::{print_answer, print_start};
use lex::Token;
use lookups::{node_start, type_token};
use positions::{Span, line_column};
use std::io;
use std::io::Read;

// One more than a script may have.
const ROOM: usize = 65537;

// A script of blanks: there are cases that give only its length.
const BLANKS: [u8; ROOM] = [b' '; ROOM];

// ---- what a case says

// A number; what is missing or malformed is taken for 0, for what is written is held to `stdout`.
fn read_cell(input: &mut impl Read) -> io::Result<u32> {
    Ok(read_up_to(input, 4294967295)? as u32)
}

// What a case asks for.
enum Lookup {
    NodeStart,
    TypeToken,
    Span,
    Place,
    Comparison,
}

// By the numbers that tools/cases writes.
fn read_lookup(input: &mut impl Read) -> io::Result<Option<Lookup>> {
    Ok(match read_cell(input)? {
        1 => Some(Lookup::NodeStart),
        2 => Some(Lookup::TypeToken),
        3 => Some(Lookup::Span),
        4 => Some(Lookup::Place),
        5 => Some(Lookup::Comparison),
        _ => None,
    })
}

// A script; what is not given of it is what it held.
fn read_bytes<'a>(input: &mut impl Read, script: &'a mut [u8]) -> io::Result<&'a [u8]> {
    let n = read_script(input, script)?;
    Ok(&script[..n])
}

// An array: how many cells are lent, how many of them are given, and these. The others are zero.
fn read_cells<'a>(input: &mut impl Read, cells: &'a mut [u32]) -> io::Result<&'a [u32]>
    ensures { IfOk result (λ lent. length lent.now ≤ length cells.old) }
{
    let n = read_up_to(input, cells.len())?;
    let given = read_up_to(input, n)?;
    for cell in cells[..given].iter_mut() {
        *cell = read_cell(input)?;
    }
    Ok(&cells[..n])
}

fn read_counts(input: &mut impl Read) -> io::Result<Counts> {
    Ok(Counts {
        nodes: read_cell(input)?,
        types: read_cell(input)?,
        cells: read_cell(input)?,
        roots: read_cell(input)?,
        ..Counts::default()
    })
}

// Room for the tree of a script of 16 bytes. The script is lent beside it: a room that held it too
// would lie on the stack once more while it is made.
#[derive(Drop)]
struct Room {
    nodes: [u32; 256],
    types: [u32; 128],
    lists: [u32; 128],
    roots: [u32; 16],
}

impl Room {
    const EMPTY: Room = Room {
        nodes: [0; 256],
        types: [0; 128],
        lists: [0; 128],
        roots: [0; 16],
    };

    fn read_tree<'a>(
        &'a mut self,
        input: &mut impl Read,
        script: &'a mut [u8],
    ) -> io::Result<Tree<'a>> {
        let Room {
            nodes,
            types,
            lists,
            roots,
        } = self;
        Ok(Tree {
            script: read_bytes(input, script)?,
            nodes: read_cells(input, nodes)?,
            types: read_cells(input, types)?,
            lists: read_cells(input, lists)?,
            roots: read_cells(input, roots)?,
            counts: read_counts(input)?,
        })
    }
}

// ---- the lookups: room first, for what is made behind a read that can fail is filled with zeros
// before it

fn start(rt: &impl Print, input: &mut impl Read) -> io::Result<()> {
    let mut room = Room::EMPTY;
    let mut script = BLANKS;
    let id = NodeId(read_cell(input)?);
    let tree = room.read_tree(input, &mut script)?;
    print_start(rt, node_start(&tree, id))
}

fn token_of_type(rt: &impl Print, input: &mut impl Read) -> io::Result<()> {
    let mut room = Room::EMPTY;
    let mut script = BLANKS;
    let id = TypeExprId(read_cell(input)?);
    let tree = room.read_tree(input, &mut script)?;
    print_answer(
        rt,
        type_token(&tree, id),
        |t| print!(rt; "{} {} {}", t.kind, t.start, t.len),
    )
}

fn span(rt: &impl Print, input: &mut impl Read) -> io::Result<()> {
    let mut script = BLANKS;
    let token = Token {
        kind: read_cell(input)?,
        start: read_cell(input)? as usize,
        len: read_cell(input)? as usize,
    };
    let script = read_bytes(input, &mut script)?;
    print_answer(
        rt,
        Span::from_token(script, token),
        |span| print!(rt; "{} {}", span.start, span.len),
    )
}

fn place(rt: &impl Print, input: &mut impl Read) -> io::Result<()> {
    let mut script = BLANKS;
    let at = read_cell(input)?;
    let script = read_bytes(input, &mut script)?;
    print_answer(
        rt,
        line_column(script, at),
        |place| print!(rt; "{} {}", place.line, place.column),
    )
}

fn comparison(rt: &impl Print, input: &mut impl Read) -> io::Result<()> {
    let mut room = Room::EMPTY;
    let mut room2 = Room::EMPTY;
    let mut script = BLANKS;
    let mut script2 = BLANKS;
    let tree = room.read_tree(input, &mut script)?;
    let tree2 = room2.read_tree(input, &mut script2)?;
    print_answer(rt, same_shape(&tree, &tree2), |same| {
        if same {
            print!(rt; "same")
        } else {
            print!(rt; "different")
        }
    })
}

fn answer(rt: &impl Print, input: &mut impl Read) -> io::Result<()> {
    match read_lookup(input)? {
        Some(Lookup::NodeStart) => start(rt, input),
        Some(Lookup::TypeToken) => token_of_type(rt, input),
        Some(Lookup::Span) => span(rt, input),
        Some(Lookup::Place) => place(rt, input),
        Some(Lookup::Comparison) => comparison(rt, input),
        None => Ok(()),
    }
}

// The next case. Answers whether there was one.
fn next_case(rt: &impl Print, input: &mut impl Read) -> Result<bool, ReadError> {
    if !print_name(rt, input)? {
        return Ok(false);
    }
    answer(rt, input)?;
    println!(rt;)?;
    Ok(true)
}

fn main(rt: HostRuntime) -> io::Result<()> {
    let mut input = rt.stdin();
    each_case(&rt, |i| Ok(i < MAX_CASES && next_case(&rt, &mut input)?))
}
