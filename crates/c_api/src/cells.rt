// Answers as numbers. Functions and no `From`: the types and the arrays are both of other crates.
ghost use Rattle.std.specs.Prelude.{◌≡◌};
ghost use Rattle.lex.specs.Answer.{answered};
ghost use Rattle.ast.specs.Decode.{option_of};
ghost use Rattle.ast.specs.Layout.{token_cells};
ghost use Rattle.c_api.specs.Numbers.{Answers, same_cells};
ghost use Rattle.c_api.specs.Numbers.{start_cells, span_cells, place_cells, yes_cells};
ghost use Rattle.c_api.specs.Tables.{table_cells};
ghost use Rattle.c_api.specs.Texts.{length_cells};

use lex::{Refusal, Token};
use positions::{Place, Span};
use tokens::TableCounts;

// 0, with the cells of the answer in what is lent for them; or a refusal's number, and nothing that
// is lent changes.
#[tactic(auto, unfolding(crate::specs::Numbers::number_of, crate::specs::Numbers::answer_cells))]
pub(crate) fn put<T: Copy, const N: usize>(
    lent: &mut [T; N],
    answer: Result<[T; N], Refusal>,
) -> u32
    ensures { Answers same_cells (answered answer) result lent.old lent.new }
{
    match answer {
        Ok(cells) => {
            *lent = cells;
            0
        }
        Err(refusal) => refusal.into(),
    }
}

// 1 and the start of a node, or 0 and 0 where it has none.
#[tactic(auto, unfolding(crate::specs::Numbers::start_cells))]
pub(crate) fn start_cells(start: Option<u32>) -> [u64; 2]
    ensures { result ≡ start_cells (option_of start) }
{
    match start {
        Some(at) => [1, at as u64],
        None => [0, 0],
    }
}

// A token's kind, start and length.
#[tactic(auto, unfolding(ast::specs::Layout::token_cells))]
pub(crate) fn token_cells(t: Token) -> [u64; 3]
    ensures { result ≡ token_cells t }
{
    [t.kind as u64, t.start as u64, t.len as u64]
}

// A span's start and length.
#[tactic(auto, unfolding(crate::specs::Numbers::span_cells))]
pub(crate) fn span_cells(span: Span) -> [u64; 2]
    ensures { result ≡ span_cells span }
{
    [span.start as u64, span.len as u64]
}

// A line and a column.
#[tactic(auto, unfolding(crate::specs::Numbers::place_cells))]
pub(crate) fn place_cells(place: Place) -> [u64; 2]
    ensures { result ≡ place_cells place }
{
    [place.line as u64, place.column as u64]
}

// 1 for yes, 0 for no.
#[tactic(auto, unfolding(crate::specs::Numbers::yes_cells))]
pub(crate) fn yes_cells(yes: bool) -> [u64; 1]
    ensures { result ≡ yes_cells yes }
{
    [yes as u64]
}

// The records of both tables.
#[tactic(auto, unfolding(crate::specs::Tables::table_cells))]
pub(crate) fn table_cells(made: TableCounts) -> [u32; 2]
    ensures { result ≡ table_cells made }
{
    [made.tokens, made.errors]
}

// How many bytes a text has.
#[tactic(auto, unfolding(crate::specs::Texts::length_cells))]
pub(crate) fn length_cells(n: usize) -> [u64; 1]
    ensures { result ≡ length_cells n }
{
    [n as u64]
}
