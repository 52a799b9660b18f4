// Cutting a script into a lent table of tokens and a lent table of the lexer's errors.
#![tactic(auto)]

ghost use Rattle.std.specs.Prelude.{◌≡◌, true, ◌&&◌, ◌==◌, fold, ◌++◌};
ghost use Rattle.std.specs.Prelude.{◌+◌, ◌*◌, ◌≤◌, length, take, drop};
ghost use Rattle.lex.specs.Answer.{max_bytes, answered};
ghost use Rattle.lex.specs.Cells.{padded};
ghost use Rattle.lex.specs.Kind.{same_bytes};
ghost use Rattle.lex.specs.Lex.{cut_at, tokens_of, diagnostic_of};
ghost use Rattle.tokens.specs.Tables.{token_width, error_width, token_record, error_record};
ghost use Rattle.tokens.specs.Tables.{token_table, error_table, behind, limits, promised, is_cut};
ghost use Rattle.tokens.specs.Table.{token_at, token_of, error_at, occurrence_of};
ghost use Rattle.tokens.specs.Filling.{Stops};

use lex::{
    Classes, Diagnostic, Fault, Lexer, MAX_BYTES, Refusal, Step, Token, Type, spelling_offset,
};

// How many records each table has.
#[derive(Clone, Copy)]
pub struct TableCounts {
    pub tokens: u32,
    pub errors: u32,
}

// The cells of a record.
pub const TOKEN_WIDTH: usize = 4;

pub const ERROR_WIDTH: usize = 6;

// ---- records

// Token record `n`. Cell by cell, as errors are: `copy_from_slice` tests whether what it copies
// overlaps, by which cutting takes 3 % more instructions; of `tokens[at..].first_chunk_mut()` the
// proof has no name for what `writes_back` says, so that the cells behind are not shown.
fn put_token(script: &[u8], tokens: &mut [u32], n: usize, t: Token)
    requires { (token_width * n + token_width ≤ length tokens.old)
        × (length script.now ≤ max_bytes)
        × (t.start ≤ length script.now)
        × (t.len ≤ max_bytes) }
    ensures { tokens.new
        ≡ take (token_width * n) tokens.old
        ++ token_record script.now t
        ++ drop (token_width * n + token_width) tokens.old }
{
    let at = TOKEN_WIDTH * n;
    let start = t.start;
    let begins = start + spelling_offset(t.kind, &script[start..]);
    tokens[at] = t.kind;
    tokens[at + 1] = start as u32;
    tokens[at + 2] = t.len as u32;
    tokens[at + 3] = begins as u32;
}

// Error record `n`, with so many tokens before it.
fn put_error(errors: &mut [u32], n: usize, e: Fault, after: usize)
    requires { (error_width * n + error_width ≤ length errors.old)
        × (e.start ≤ max_bytes)
        × (e.len ≤ max_bytes)
        × (after ≤ max_bytes) }
    ensures { errors.new
        ≡ take (error_width * n) errors.old
        ++ error_record (record { after = after; diagnostic = diagnostic_of e })
        ++ drop (error_width * n + error_width) errors.old }
{
    let at = ERROR_WIDTH * n;
    errors[at] = e.number;
    errors[at + 1] = e.start as u32;
    errors[at + 2] = e.len as u32;
    errors[at + 3] = 0;
    errors[at + 4] = e.seen as u32;
    errors[at + 5] = after as u32;
}

// What record `n` says of a token. No `Token`, whose numbers are `usize`: the parser stores these
// in cells of 32 bits, and would have to show of each that it fits.
#[derive(Clone, Copy)]
pub struct Entry {
    pub kind: u32,
    pub start: u32,
    pub len: u32,
}

impl Entry {
    // Eof, where a table has no more records.
    pub const EOF: Entry = Entry {
        kind: Type::EOF,
        start: 0,
        len: 3,
    };
}

// The token of record `i`; past the last whole record Eof.
// Eof and no Option: to the parser tokens end with Eof, in the table or behind it.
pub fn token_at(tokens: &[u32], i: usize) -> Entry
    ensures { token_of result ≡ token_at tokens.now i }
{
    let Some(record) = tokens.as_chunks::<TOKEN_WIDTH>().0.get(i) else {
        return Entry::EOF;
    };
    let [kind, start, len, _] = *record;
    Entry { kind, start, len }
}

// What record `n` says of an error, and how many tokens were cut before it.
#[derive(Clone, Copy, Default)]
pub struct ErrorEntry {
    pub error: Diagnostic,
    pub after: u32,
}

// The error of record `i`; past the last whole record zeros. No Option: behind its errors a table
// has zeros too, so that a reader ends at either by one test.
pub fn error_at(errors: &[u32], i: usize) -> ErrorEntry
    ensures { occurrence_of result ≡ error_at errors.now i }
{
    let Some(record) = errors.as_chunks::<ERROR_WIDTH>().0.get(i) else {
        return ErrorEntry::default();
    };
    // By name: `split_first_chunk` has five of six cells in an Option, though it is never None.
    let [number, start, len, wanted, seen, after] = *record;
    ErrorEntry {
        error: Diagnostic {
            number,
            start,
            len,
            wanted,
            seen,
        },
        after,
    }
}

// ---- the tables

// From a place on an array is cleared; as it is where the place lies past its end.
pub fn clear_from(a: &mut [u32], from: usize)
    ensures { a.new ≡ behind from a.old }
{
    if from < a.len() {
        a[from..].fill(0);
    }
}

// Each table is a parameter: C lends them apart, and a step fills one while it leaves the other.

// Where filling stopped: how many records it made, and where it would go on if the script has not
// ended.
#[derive(Clone, Copy)]
struct Stop {
    tokens: usize,
    errors: usize,
    next: Option<usize>,
}

// The records from a position on, which has so many tokens before it, at the front of both arrays,
// as far as there is room. It is this crate's only loop over the lexer, compiled into it.
// Records are counted by hand: a step fills one of two arrays or none, and of the parts that
// `as_chunks_mut` lends a proof knows no cell afterwards.
#[tactic(auto, using(crate::proofs::Progress::less_token, crate::proofs::Progress::less_fault))]
fn fill(
    classes: &Classes,
    script: &[u8],
    from: usize,
    before: usize,
    tokens: &mut [u32],
    errors: &mut [u32],
) -> Stop
    requires { (length script.now ≤ max_bytes)
        × (from ≤ length script.now)
        × (before + length (tokens_of (cut_at script.now from)) ≤ max_bytes + 1) }
    ensures { Stops script.now from before tokens.new errors.new result }
{
    let mut n: usize = 0;
    let mut m: usize = 0;
    let mut lexer = Lexer::new(script).with_pos(from);
    loop {
        match lexer.step(classes) {
            Step::Token { token, next } => {
                if tokens.len() < TOKEN_WIDTH * n + TOKEN_WIDTH {
                    break;
                }
                put_token(script, tokens, n, token);
                n += 1;
                lexer.pos = next;
            }
            Step::Fault { fault, next } => {
                if errors.len() < ERROR_WIDTH * m + ERROR_WIDTH {
                    break;
                }
                put_error(errors, m, fault, before + n);
                m += 1;
                lexer.pos = next;
            }
            Step::End { at } => {
                if tokens.len() < TOKEN_WIDTH * n + TOKEN_WIDTH {
                    break;
                }
                put_token(script, tokens, n, Token::eof(at));
                return Stop {
                    tokens: n + 1,
                    errors: m,
                    next: None,
                };
            }
        }
    }
    Stop {
        tokens: n,
        errors: m,
        next: Some(lexer.pos),
    }
}

// Refused where the script is too long, and then where an array is too short for it: `tokens` for a
// record for each byte and one for Eof, or `errors` for a record for each byte.
#[tactic(auto, unfolding(crate::specs::Tables::limits, crate::specs::Tables::too_short, lex::specs::Bytes::or))]
fn refusal(script: &[u8], tokens: &[u32], errors: &[u32]) -> Result<(), Refusal>
    ensures { answered result ≡ limits script.now tokens.now errors.now }
{
    let n = script.len();
    if MAX_BYTES < n {
        return Err(Refusal::TooLong);
    }
    if tokens.len() < TOKEN_WIDTH * n + TOKEN_WIDTH || errors.len() < ERROR_WIDTH * n {
        return Err(Refusal::TooShort);
    }
    Ok(())
}

// Cuts a script into both tables, with zeros behind them. Nothing changes where it is refused.
pub fn cut(script: &[u8], tokens: &mut [u32], errors: &mut [u32]) -> Result<TableCounts, Refusal>
    ensures { promised script.now tokens.old errors.old
        ≡ record { answer = answered result; tokens = tokens.new; errors = errors.new } }
{
    refusal(script, tokens, errors)?;
    let s = fill(&Classes::new(), script, 0, 0, tokens, errors);
    clear_from(tokens, TOKEN_WIDTH * s.tokens);
    clear_from(errors, ERROR_WIDTH * s.errors);
    Ok(TableCounts {
        tokens: s.tokens as u32,
        errors: s.errors as u32,
    })
}

// ---- whether two arrays are these tables

// Whether the first `n` cells of `a` stand in `b` from a place on.
// By place and length: so that the part has `n` cells is shown here, once for both tables.
fn same_cells(a: &[u32], n: usize, b: &[u32], at: usize) -> bool
    requires { (n ≤ length a.now) × (at + n ≤ length b.now) }
    ensures { result ≡ same_bytes (take n (drop at b.now)) (take n a.now) }
{
    b[at..at + n] == a[..n]
}

// Whether all cells are zero. There is no early exit: so the compiled code compares many cells in
// one step.
fn is_zero(cells: &[u32]) -> bool
    ensures { result ≡ fold (λ all cell. all && (cell == 0)) true cells.now }
{
    cells.iter().fold(true, |all, cell| all & (*cell == 0))
}

// Whether both arrays hold their tables and zeros behind: a part of the script is cut into `t` and
// `e`, and compared, one part after the other. No iterator of parts: its items would be lent from
// `t` and `e`, which the next part overwrites. Six parameters for the reason at `fill`.
#[tactic(auto, using(crate::proofs::Same::part_room))]
fn agrees(
    classes: &Classes,
    t: &mut [u32],
    e: &mut [u32],
    script: &[u8],
    tokens: &[u32],
    errors: &[u32],
) -> bool
    requires { (token_width ≤ length t.old)
        × (error_width ≤ length e.old)
        × (length script.now ≤ max_bytes)
        × (token_width * length script.now + token_width ≤ length tokens.now)
        × (error_width * length script.now ≤ length errors.now) }
    ensures { result
        ≡ same_bytes tokens.now (padded (length tokens.now) (token_table script.now))
        && same_bytes errors.now (padded (length errors.now) (error_table script.now)) }
{
    let mut n: usize = 0;
    let mut m: usize = 0;
    let mut pos: usize = 0;
    loop {
        let s = fill(classes, script, pos, n, t, e);
        if !same_cells(t, TOKEN_WIDTH * s.tokens, tokens, TOKEN_WIDTH * n) {
            return false;
        }
        if !same_cells(e, ERROR_WIDTH * s.errors, errors, ERROR_WIDTH * m) {
            return false;
        }
        n += s.tokens;
        m += s.errors;
        let Some(next) = s.next else {
            if !is_zero(&tokens[TOKEN_WIDTH * n..]) {
                return false;
            }
            return is_zero(&errors[ERROR_WIDTH * m..]);
        };
        pos = next;
    }
}

// So many records of each table are cut and compared at a time.
const PART_TOKENS: usize = 64;

const PART_ERRORS: usize = 32;

// Whether both arrays are exactly what cutting this script leaves in them, zeros behind included.
// No where cutting is refused.
pub fn is_cut(script: &[u8], tokens: &[u32], errors: &[u32]) -> bool
    ensures { result ≡ is_cut script.now tokens.now errors.now }
{
    let Ok(()) = refusal(script, tokens, errors) else {
        return false;
    };
    let mut t = [0; TOKEN_WIDTH * PART_TOKENS];
    let mut e = [0; ERROR_WIDTH * PART_ERRORS];
    agrees(&Classes::new(), &mut t, &mut e, script, tokens, errors)
}
