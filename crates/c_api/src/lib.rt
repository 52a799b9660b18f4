// The reader for programs in other languages: readings, lookups and comparison on numbers and
// slices. C calls each function by its own name and lends each array by itself: so they stand side
// by side, and no struct holds what they are lent.
#![tactic(auto)]

mod cells;
mod cutting;
mod describe;
mod lexer;
mod places;
mod practice_sheet;
mod sheets;
mod texts;

ghost use Rattle.std.specs.Prelude.{◌≡◌};
ghost use Rattle.rules.specs.Rules.{stage_one};
ghost use Rattle.rules.specs.Parse.{parse, parse_collect};
ghost use Rattle.rules.specs.Parsed.{parsed_of};
ghost use Rattle.rules.specs.Promise.{arrays_of, numbers_of};
ghost use Rattle.parser.specs.Steps.{read_promised, parse_promised};
ghost use Rattle.ast.specs.Layout.{token_cells};
ghost use Rattle.ast.specs.Answer.{lent, lent_of};
ghost use Rattle.lookups.specs.Lookup.{node_start, type_token};
ghost use Rattle.positions.specs.Span.{token_span};
ghost use Rattle.positions.specs.Position.{place_at};
ghost use Rattle.compare.specs.Compare.{compare};
ghost use Rattle.c_api.specs.Numbers.{counts_at, reading_cells, as_numbers, both_numbers};
ghost use Rattle.c_api.specs.Numbers.{start_cells, span_cells, place_cells, yes_cells, Answers};

use ast::{NodeId, Parsed, ReadError, Tree, TypeExprId};
use cells::{place_cells, put, span_cells, start_cells, token_cells, yes_cells};
use compare::same_shape;
use lex::Token;
use lookups::{node_start, type_token};
use parser::{parse, parse_collect, read, read_collect};
use positions::{Span, line_column};

// ---- readings

// The numbers of a reading: its number, the five numbers of an error and the six counts. What is
// lent for them stays as it is where the call was refused.
#[tactic(auto, unfolding(crate::specs::Numbers::reading_cells, crate::specs::Numbers::number_cells, rules::specs::Promise::numbers_of, lex::specs::Cells::diagnostic_cells))]
fn put_numbers(numbers: &mut [u32; 12], answer: Parsed) -> u32
    ensures { let due = parsed_of answer in
        (result ≡ (numbers_of due).number) × (numbers.new ≡ reading_cells due numbers.old) }
{
    match answer {
        Ok(counts) => {
            let cells: [u32; 6] = counts.into();
            *numbers = [0; 12];
            numbers[6..].copy_from_slice(&cells);
            0
        }
        Err(ReadError::Script(error)) => {
            let cells: [u32; 5] = error.into();
            *numbers = [0; 12];
            numbers[0] = error.number;
            numbers[1..6].copy_from_slice(&cells);
            error.number
        }
        Err(ReadError::Refused(refusal)) => refusal.into(),
    }
}

// Cutting and strict reading: both tables, and the tree or the first error.
#[unsafe(no_mangle)]
pub extern "C" fn purple_garden_parse(
    script: &[u8],
    tokens: &mut [u32],
    errors: &mut [u32],
    nodes: &mut [u32],
    types: &mut [u32],
    lists: &mut [u32],
    roots: &mut [u32],
    diagnostics: &mut [u32],
    numbers: &mut [u32; 12],
) -> u32
    ensures { let before =
        arrays_of nodes.old types.old lists.old
        roots.old diagnostics.old
        in
        let after =
        arrays_of nodes.new types.new lists.new
        roots.new diagnostics.new
        in
        let due =
        parse_promised (parse stage_one) script.now tokens.old
        errors.old before
        in
        both_numbers due numbers.old
        ≡ record {
          reading = record { number = result; numbers = numbers.new; arrays = after };
          tokens = tokens.new;
          errors = errors.new;
        } }
{
    let answer = parse(
        script,
        tokens,
        errors,
        nodes,
        types,
        lists,
        roots,
        diagnostics,
    );
    put_numbers(numbers, answer)
}

// Cutting and collecting reading: both tables, and the tree with all errors of the script.
#[unsafe(no_mangle)]
pub extern "C" fn purple_garden_parse_collect(
    script: &[u8],
    tokens: &mut [u32],
    errors: &mut [u32],
    nodes: &mut [u32],
    types: &mut [u32],
    lists: &mut [u32],
    roots: &mut [u32],
    diagnostics: &mut [u32],
    numbers: &mut [u32; 12],
) -> u32
    ensures { let before =
        arrays_of nodes.old types.old lists.old
        roots.old diagnostics.old
        in
        let after =
        arrays_of nodes.new types.new lists.new
        roots.new diagnostics.new
        in
        let due =
        parse_promised (parse_collect stage_one) script.now tokens.old
        errors.old before
        in
        both_numbers due numbers.old
        ≡ record {
          reading = record { number = result; numbers = numbers.new; arrays = after };
          tokens = tokens.new;
          errors = errors.new;
        } }
{
    let answer = parse_collect(
        script,
        tokens,
        errors,
        nodes,
        types,
        lists,
        roots,
        diagnostics,
    );
    put_numbers(numbers, answer)
}

// Strict reading from tables that cutting the script left: the tree, or the first error.
#[unsafe(no_mangle)]
pub extern "C" fn purple_garden_read(
    script: &[u8],
    tokens: &[u32],
    errors: &[u32],
    nodes: &mut [u32],
    types: &mut [u32],
    lists: &mut [u32],
    roots: &mut [u32],
    diagnostics: &mut [u32],
    numbers: &mut [u32; 12],
) -> u32
    ensures { let before =
        arrays_of nodes.old types.old lists.old
        roots.old diagnostics.old
        in
        let after =
        arrays_of nodes.new types.new lists.new
        roots.new diagnostics.new
        in
        let due =
        read_promised (parse stage_one) script.now tokens.now
        errors.now before
        in
        as_numbers due numbers.old
        ≡ record { number = result; numbers = numbers.new; arrays = after } }
{
    let answer = read(
        script,
        tokens,
        errors,
        nodes,
        types,
        lists,
        roots,
        diagnostics,
    );
    put_numbers(numbers, answer)
}

// Collecting reading from such tables: the tree with all errors of the script.
#[unsafe(no_mangle)]
pub extern "C" fn purple_garden_read_collect(
    script: &[u8],
    tokens: &[u32],
    errors: &[u32],
    nodes: &mut [u32],
    types: &mut [u32],
    lists: &mut [u32],
    roots: &mut [u32],
    diagnostics: &mut [u32],
    numbers: &mut [u32; 12],
) -> u32
    ensures { let before =
        arrays_of nodes.old types.old lists.old
        roots.old diagnostics.old
        in
        let after =
        arrays_of nodes.new types.new lists.new
        roots.new diagnostics.new
        in
        let due =
        read_promised (parse_collect stage_one) script.now tokens.now
        errors.now before
        in
        as_numbers due numbers.old
        ≡ record { number = result; numbers = numbers.new; arrays = after } }
{
    let answer = read_collect(
        script,
        tokens,
        errors,
        nodes,
        types,
        lists,
        roots,
        diagnostics,
    );
    put_numbers(numbers, answer)
}

// ---- lookups and comparison

// A tree from what is lent.
fn tree_of<'a>(
    script: &'a [u8],
    nodes: &'a [u32],
    types: &'a [u32],
    lists: &'a [u32],
    roots: &'a [u32],
    counts: &[u32; 6],
) -> Tree<'a>
    ensures { let counted = counts_at counts.now in
        lent_of result
        ≡ lent script.now nodes.now types.now lists.now roots.now counted }
{
    Tree {
        script,
        nodes,
        types,
        lists,
        roots,
        counts: counts.into(),
    }
}

// Where a node starts: `start` gets 1 and the start, or 0 and 0 where the node has none.
#[unsafe(no_mangle)]
pub extern "C" fn purple_garden_node_start(
    script: &[u8],
    nodes: &[u32],
    types: &[u32],
    lists: &[u32],
    roots: &[u32],
    counts: &[u32; 6],
    node: u32,
    start: &mut [u64; 2],
) -> u32
    ensures { let tree =
        lent script.now nodes.now types.now
        lists.now roots.now (counts_at counts.now)
        in
        Answers start_cells (node_start tree node) result start.old start.new }
{
    let tree = tree_of(script, nodes, types, lists, roots, counts);
    put(start, node_start(&tree, NodeId(node)).map(start_cells))
}

// The token of a type: `token` gets its kind, start and length.
#[unsafe(no_mangle)]
pub extern "C" fn purple_garden_type_token(
    script: &[u8],
    nodes: &[u32],
    types: &[u32],
    lists: &[u32],
    roots: &[u32],
    counts: &[u32; 6],
    ty: u32,
    token: &mut [u64; 3],
) -> u32
    ensures { let tree =
        lent script.now nodes.now types.now
        lists.now roots.now (counts_at counts.now)
        in
        Answers token_cells (type_token tree ty) result token.old token.new }
{
    let tree = tree_of(script, nodes, types, lists, roots, counts);
    put(token, type_token(&tree, TypeExprId(ty)).map(token_cells))
}

// The span of a token: `span` gets its start and length.
#[unsafe(no_mangle)]
pub extern "C" fn purple_garden_token_span(
    script: &[u8],
    kind: u32,
    start: usize,
    len: usize,
    span: &mut [u64; 2],
) -> u32
    ensures { let bytes = script.now in
        let due = token_span bytes (record { kind = kind; start = start; len = len }) in
        Answers span_cells due result span.old span.new }
{
    let answer = Span::from_token(script, Token { kind, start, len });
    put(span, answer.map(span_cells))
}

// The line and column of a byte position: `place` gets both.
#[unsafe(no_mangle)]
pub extern "C" fn purple_garden_line_column(script: &[u8], at: u32, place: &mut [u64; 2]) -> u32
    ensures { let due = place_at script.now at in
        Answers place_cells due result place.old place.new }
{
    put(place, line_column(script, at).map(place_cells))
}

// Two trees have the same shape: `same` gets 1 for yes and 0 for no.
#[unsafe(no_mangle)]
pub extern "C" fn purple_garden_same_shape(
    script: &[u8],
    nodes: &[u32],
    types: &[u32],
    lists: &[u32],
    roots: &[u32],
    counts: &[u32; 6],
    script2: &[u8],
    nodes2: &[u32],
    types2: &[u32],
    lists2: &[u32],
    roots2: &[u32],
    counts2: &[u32; 6],
    same: &mut [u64; 1],
) -> u32
    ensures { let first =
        lent script.now nodes.now types.now
        lists.now roots.now (counts_at counts.now)
        in
        let second =
        lent script2.now nodes2.now types2.now
        lists2.now roots2.now (counts_at counts2.now)
        in
        Answers yes_cells (compare first second) result same.old same.new }
{
    let left = tree_of(script, nodes, types, lists, roots, counts);
    let right = tree_of(script2, nodes2, types2, lists2, roots2, counts2);
    put(same, same_shape(&left, &right).map(yes_cells))
}
