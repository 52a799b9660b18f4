// Reads a list of scripts on standard input and prints of each what the lexer yields, the listing
// of strict mode, the start of each node and the token of each type where strict mode accepts, and
// the listing of collecting mode. A script is a frame of at most 960 bytes. What is framed
// otherwise ends the program. Each reading is made again in two steps, and `(differs)` printed
// where these leave something else.
#![tactic(auto)]

use ast::lent::Tree;
use ast::{Counts, NodeId, Parsed, TypeExprId};
use console::frames::{ReadError, each_case, read_frame};
use console::output::{print_answer, print_start};
use console::tokens::TokenForm;
use list_script::{Buffers, MAX_SCRIPT};
use listing::Failure;
use lookups::{node_start, type_token};
use std::io;
use std::io::Read;
use tokens::cut;

// As many scripts as are read: what follows them is not.
const MAX_SCRIPTS: u64 = 1_000_000_000_000;

// What the arrays of the second reading hold before it.
const RUBBISH: u32 = u32::MAX;

fn print_starts(rt: &impl Print, tree: &Tree) -> io::Result<()> {
    for i in 0..tree.counts.nodes {
        print!(rt; "(start {i} ")?;
        print_start(rt, node_start(tree, NodeId(i)))?;
        println!(rt; ")")?;
    }
    Ok(())
}

fn print_type_tokens(rt: &impl Print, tree: &Tree) -> io::Result<()> {
    for i in 0..tree.counts.types {
        print!(rt; "(typetoken {i} ")?;
        print_answer(
            rt,
            type_token(tree, TypeExprId(i)),
            |t| print!(rt; "{}", TokenForm(t)),
        )?;
        println!(rt; ")")?;
    }
    Ok(())
}

// The start of each node and the token of each type.
fn print_lookups(
    rt: &impl Print,
    script: &[u8],
    buffers: &Buffers,
    counts: Counts,
) -> io::Result<()> {
    let tree = Tree {
        script,
        nodes: &buffers.nodes,
        types: &buffers.types,
        lists: &buffers.lists,
        roots: &buffers.roots,
        counts,
    };
    print_starts(rt, &tree)?;
    print_type_tokens(rt, &tree)
}

// The script is cut, and then read from the tables by `read`, into other arrays: answer, tables and
// arrays have to be those that one step left. Its arrays lie on the stack for this alone, and not
// while the listing is printed.
#[inline(never)]
fn read_again<R>(
    rt: &impl Print,
    script: &[u8],
    answer: Parsed,
    buffers: &Buffers,
    read: R,
) -> io::Result<()>
where
    R: FnOnce(&mut Buffers, &[u8]) -> Parsed,
    requires { R.IsAlwaysCallable read }
{
    let mut again = Buffers::filled(RUBBISH);
    let _ = cut(script, &mut again.tokens, &mut again.errors);
    let answer_again = read(&mut again, script);
    if answer != answer_again || *buffers != again {
        println!(rt; "(differs)")?;
    }
    Ok(())
}

// Strict mode in one step and in two, and the lookups on the arrays that it leaves. The steps of
// this mode and of the other are functions of the parser, which take each array by itself.
fn print_strict(rt: &impl Print, script: &[u8]) -> io::Result<()> {
    let mut buffers = Buffers::filled(0);
    let answer = buffers.parse(script);
    list_script::print(rt, answer.map_err(Failure::from), &buffers.arrays())?;
    println!(rt; "(starts)")?;
    if let Ok(counts) = answer {
        print_lookups(rt, script, &buffers, counts)?;
    }
    read_again(rt, script, answer, &buffers, |again, script| {
        parser::read(
            script,
            &again.tokens,
            &again.errors,
            &mut again.nodes,
            &mut again.types,
            &mut again.lists,
            &mut again.roots,
            &mut again.diagnostics,
        )
    })
}

// Collecting mode in one step and in two.
fn print_collecting(rt: &impl Print, script: &[u8]) -> io::Result<()> {
    let mut buffers = Buffers::filled(0);
    let answer = buffers.parse_collect(script);
    list_script::print(rt, answer.map_err(Failure::from), &buffers.arrays())?;
    read_again(rt, script, answer, &buffers, |again, script| {
        parser::read_collect(
            script,
            &again.tokens,
            &again.errors,
            &mut again.nodes,
            &mut again.types,
            &mut again.lists,
            &mut again.roots,
            &mut again.diagnostics,
        )
    })
}

// The next script, with number `i`. Answers whether there was one.
fn replay(rt: &impl Print, input: &mut impl Read, i: u64) -> Result<bool, ReadError> {
    let mut buf = [0u8; MAX_SCRIPT];
    let Some(n) = read_frame(input, &mut buf)? else {
        return Ok(false);
    };
    let script = &buf[..n];
    println!(rt; "(script {i})")?;
    println!(rt; "(tokens)")?;
    console::tokens::print_script(rt, script)?;
    println!(rt; "(strict)")?;
    print_strict(rt, script)?;
    println!(rt; "(collect)")?;
    print_collecting(rt, script)?;
    Ok(true)
}

fn main(rt: HostRuntime) -> io::Result<()> {
    let mut input = rt.stdin();
    each_case(&rt, |i| Ok(i < MAX_SCRIPTS && replay(&rt, &mut input, i)?))
}
