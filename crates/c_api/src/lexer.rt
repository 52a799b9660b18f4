// The lexer for programs in other languages, on numbers and slices.
ghost use Rattle.std.specs.Prelude.{◌≡◌, leb, length, is_some, unwrap_or};
ghost use Rattle.lex.specs.Utf8.{utf8};
ghost use Rattle.lex.specs.Lex.{step_at};
ghost use Rattle.lex.specs.Spelling.{spelling};
ghost use Rattle.c_api.specs.LexerCells.{cells_of, put_cells};

use lex::{Step, Token};

// Whether the bytes are well-formed UTF-8.
#[unsafe(no_mangle)]
pub extern "C" fn lex_is_utf8(bytes: &[u8]) -> bool
    ensures { result ≡ utf8 bytes.now }
{
    lex::is_utf8(bytes)
}

// A step as numbers. No `From`: the step is of another crate, and the array is of the language.
fn cells_of(step: Step) -> [u64; 6]
    ensures { result ≡ cells_of step }
{
    match step {
        Step::Token { token, next } => [
            0,
            token.kind as u64,
            token.start as u64,
            token.len as u64,
            0,
            next as u64,
        ],
        Step::Fault { fault, next } => [
            1,
            fault.number as u64,
            fault.start as u64,
            fault.len as u64,
            fault.seen as u64,
            next as u64,
        ],
        Step::End { at } => [2, 0, at as u64, 0, 0, at as u64],
    }
}

// What stands at a position after blanks and comments, in the first six cells of `out`: 0 and a
// token's kind, start and length, or 1 and a fault's number, start, length and byte, and then the
// next position; or 2 and where the script ends. Answers whether `out` has six cells; a shorter one
// is left as it is.
#[unsafe(no_mangle)]
#[tactic(auto, unfolding(crate::specs::LexerCells::put_cells))]
pub extern "C" fn lex_step(script: &[u8], pos: usize, out: &mut [u64]) -> bool
    ensures { let cells = cells_of (step_at script.now pos) in
        let before = out.old in
        (result ≡ leb 6 (length before)) × (out.new ≡ put_cells cells before) }
{
    if out.len() < 6 {
        return false;
    }
    out[..6].copy_from_slice(&cells_of(lex::step(script, pos)));
    true
}

// Where the spelling of any token begins, into `out`. Answers whether it has one within the script;
// `out` keeps what it has where not.
#[unsafe(no_mangle)]
pub extern "C" fn lex_spelling(
    script: &[u8],
    kind: u32,
    start: usize,
    len: usize,
    out: &mut u64,
) -> bool
    ensures { let bytes = script.now in
        let place = spelling bytes (record { kind = kind; start = start; len = len }) in
        (result ≡ is_some place) × (out.new ≡ unwrap_or place out.old) }
{
    match lex::spelling(script, Token { kind, start, len }) {
        Some(place) => {
            *out = place as u64;
            true
        }
        None => false,
    }
}
