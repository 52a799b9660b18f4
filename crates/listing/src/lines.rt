// The lines of the listing.
ghost use Rattle.std.specs.Prelude.{ℕ, List, [], ◌∷◌, ◌<◌, ◌/◌, length, map};
ghost use Rattle.ast.specs.Layout.{diagnostic_width};
ghost use Rattle.ast.specs.Decode.{node_at, type_at};
ghost use Rattle.text.specs.Text.{bytes, number};
ghost use Rattle.text.specs.Emit.{Writes};
ghost use Rattle.rules.specs.Parsed.{Parsed};
ghost use Rattle.listing.specs.Text.{each};
ghost use Rattle.listing.specs.Listing.{line, node_text, type_text, counts_line, numbers_line};
ghost use Rattle.listing.specs.Listing.{error_line, failure_line, diagnostic_at, held};
ghost use Rattle.listing.specs.Listing.{as_parsed, text_of};
ghost use Rattle.listing.specs.Lists.{Lists, ListsEach};

use crate::emit::{Listed, Malformed, write_next_number, write_numbers};
use crate::records::{write_node, write_type};
use crate::{Arrays, Failure};
use ast::decode::{node, type_expr};
use ast::{Counts, DIAGNOSTIC_WIDTH, NodeId, TypeExprId};
use lex::Diagnostic;
use text::Writer;

// A line of numbers.
fn write_line(name: &[u8], numbers: &[u32], w: &mut Writer)
    ensures { Writes (line name.now (map number numbers.now)) w.old w.new }
{
    write_numbers(name, numbers, w);
    w.write_byte(b'\n');
}

// How many nodes, types and values there are.
fn write_counts(c: Counts, w: &mut Writer)
    ensures { Writes (counts_line c.nodes c.types c.values) w.old w.new }
{
    w.write_text(b"(tree ");
    write_numbers(b"nodes", &[c.nodes], w);
    w.write_byte(b' ');
    write_numbers(b"types", &[c.types], w);
    w.write_byte(b' ');
    write_numbers(b"values", &[c.values], w);
    w.write_byte(b')');
    w.write_byte(b'\n');
}

// Two functions, one for nodes and one for types, and no bodies of the closures of `write_tree`: as
// bodies, no proof was found of what is listed where a record is none.
fn write_node_at(nodes: &[u32], lists: &[u32], i: u32, w: &mut Writer) -> Listed
    ensures { Lists (node_text lists.now (node_at nodes.now i)) w.old w.new result }
{
    match node(nodes, NodeId(i)) {
        Some(n) => write_node(lists, n, w),
        None => Err(Malformed),
    }
}

fn write_type_at(types: &[u32], lists: &[u32], i: u32, w: &mut Writer) -> Listed
    ensures { Lists (type_text lists.now (type_at types.now i)) w.old w.new result }
{
    match type_expr(types, TypeExprId(i)) {
        Some(t) => write_type(lists, t, w),
        None => Err(Malformed),
    }
}

// A line `(name i record)` for each of `n` records, which `write_record` writes.
fn write_records<F: Fn(u32, &mut Writer) -> Listed>(
    name: &[u8],
    n: u32,
    w: &mut Writer,
    write_record: F,
) -> Listed
    requires callable { (i : ℕ) (u : _) → i < n → F.pre write_record i u }
    ensures { (text : ℕ → List ℕ) → ListsEach (F.post write_record) n text
        → Lists (each (λ i. line name.now (number i ∷ text i ∷ [])) n) w.old w.new result }
{
    for i in 0..n {
        w.write_byte(b'(');
        w.write_text(name);
        write_next_number(i as usize, w);
        w.write_byte(b' ');
        write_record(i, w)?;
        w.write_byte(b')');
        w.write_byte(b'\n');
    }
    Ok(())
}

// The five numbers of an error, under a name. Not by console's `FaultForm`: `write!` may fail (see
// text's `Writer`), and the name and the wanted kind differ.
fn write_diagnostic(name: &[u8], e: Diagnostic, w: &mut Writer)
    ensures { Writes (numbers_line name.now e) w.old w.new }
{
    write_line(name, &<[u32; 5]>::from(e), w);
}

// A line for each error.
fn write_diagnostics(diagnostics: &[u32], w: &mut Writer)
    ensures { let error = diagnostic_at diagnostics.now in
        let n = length diagnostics.now / diagnostic_width in
        Writes (each (λ i. numbers_line (bytes "diag") (error i)) n) w.old w.new }
{
    for record in diagnostics.as_chunks().0 {
        write_diagnostic(b"diag", record.into(), w);
    }
}

fn write_tree(c: Counts, arrays: &Arrays, w: &mut Writer) -> Listed
    ensures { Lists (text_of (Parsed.Tree c) (held arrays.now)) w.old w.new result }
{
    if !arrays.holds(c) {
        return Err(Malformed);
    }
    let nodes = arrays.nodes;
    let types = arrays.types;
    let lists = &arrays.lists[..c.cells as usize];
    write_counts(c, w);
    write_records(
        b"node",
        c.nodes,
        w,
        |i, w| write_node_at(nodes, lists, i, w),
    )?;
    write_records(
        b"type",
        c.types,
        w,
        |i, w| write_type_at(types, lists, i, w),
    )?;
    write_line(b"roots", &arrays.roots[..c.roots as usize], w);
    let diagnostics = &arrays.diagnostics[..DIAGNOSTIC_WIDTH * c.diagnostics as usize];
    write_diagnostics(diagnostics, w);
    Ok(())
}

// An error that ended the reading; one of too much depth is a refusal, and has no kinds.
fn write_error(e: Diagnostic, w: &mut Writer)
    ensures { Writes (error_line e) w.old w.new }
{
    if e.number == Diagnostic::TOO_DEEP {
        write_line(b"refused", &[e.number, e.start, e.len], w);
    } else {
        write_diagnostic(b"error", e, w);
    }
}

// Why there is no tree.
fn write_failure(failure: Failure, w: &mut Writer)
    ensures { Writes (failure_line failure) w.old w.new }
{
    match failure {
        Failure::Script(e) => write_error(e, w),
        Failure::Refused(number) => write_line(b"refused", &[number], w),
    }
}

pub(crate) fn write_answer(
    answer: Result<Counts, Failure>,
    arrays: &Arrays,
    w: &mut Writer,
) -> Listed
    ensures { Lists (text_of (as_parsed answer) (held arrays.now)) w.old w.new result }
{
    match answer {
        Ok(counts) => write_tree(counts, arrays, w),
        Err(failure) => {
            write_failure(failure, w);
            Ok(())
        }
    }
}
