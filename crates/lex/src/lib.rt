// The lexer: what stands at a position of a script, and the next token.
#![tactic(auto)]

mod byte_search;
mod class;
mod diagnostic;
mod tok;
mod utf8;

ghost use Rattle.std.specs.Prelude.{◌≡◌, false, ◌+◌, ◌-◌, ◌<◌, ◌≤◌, length, get_or, drop};
ghost use Rattle.std.specs.Iterator.{at_most};
ghost use Rattle.lex.specs.declared.tok.Piece.{Piece};
ghost use Rattle.lex.specs.Bytes.{is_num_cont, count_while};
ghost use Rattle.lex.specs.Kind.{punctuator_kind, IsKindOf};
ghost use Rattle.lex.specs.Errors.{e_invalid_utf8, e_unknown_character};
ghost use Rattle.lex.specs.Lex.{begins_comment, skipped, punctuation as punctuation_of};
ghost use Rattle.lex.specs.Lex.{leading_space, doc as doc_of, string as string_of, double_in};
ghost use Rattle.lex.specs.Lex.{number as number_of, name as name_of, symbol as symbol_of};
ghost use Rattle.lex.specs.Lex.{piece as piece_of, step_at, TakesStep, next_at, is_prefix_sign};

use byte_search::{
    count_each, find_byte, line_end, peek, skip_digits, skip_ident_cont, skip_num_cont, skip_plain,
};
use class::is_ws;
pub use class::{CLASS, Classes};
pub use diagnostic::{Diagnostic, Refusal};
use tok::Piece;
pub use tok::{
    Fault, Next, Step, Token, Type, as_str_len, same_bytes, spelling, spelling_offset, well_formed,
};
pub use utf8::is_utf8;

// The most bytes that a script may have.
pub const MAX_BYTES: usize = 65536;

// A sign detached from what precedes it and glued to what follows begins a new expression.
#[tactic(auto, unfolding(crate::specs::Lex::is_prefix_sign, crate::specs::Bytes::or))]
pub fn is_prefix_sign(script: &[u8], at: usize) -> bool
    ensures { result ≡ is_prefix_sign script.now at }
{
    if script.len() <= at {
        return false;
    }
    let after = at + 1;
    if script.len() <= after {
        return false;
    }
    if is_ws(script[after]) {
        return false;
    }
    if at == 0 {
        return true;
    }
    is_ws(script[at - 1])
}

// A comment begins with `#`, but not with `#!`.
#[tactic(auto, unfolding(crate::specs::Lex::begins_comment))]
fn begins_comment(b: u8, next: u8) -> bool
    ensures { result ≡ begins_comment b next }
{
    if b != b'#' {
        return false;
    }
    next != b'!'
}

// The position after blanks and comments. It leaps over whole runs, so that no iterator steps as it
// does, and may begin behind the script's end, where there is no slice.
fn skip_separators(classes: &Classes, script: &[u8], pos: usize) -> usize
    ensures { result ≡ pos + skipped false (drop pos script.now) }
{
    let mut p = pos;
    while p < script.len() {
        let b = script[p];
        if classes.separates(b) {
            p += 1 + count_each(&script[p + 1..], |b| classes.separates(b));
        } else if begins_comment(b, peek(script, p + 1)) {
            p += line_end(&script[p..]);
        } else {
            return p;
        }
    }
    p
}

// The position after blanks and comments: mostly one space, or nothing.
fn skip_whitespace(classes: &Classes, script: &[u8], pos: usize) -> usize
    ensures { result ≡ pos + skipped false (drop pos script.now) }
{
    let mut p = pos;
    if peek(script, p) == b' ' {
        p += 1;
    }
    let b = peek(script, p);
    if b' ' < b {
        if b != b'#' {
            return p;
        }
    }
    skip_separators(classes, script, p)
}

// A sign of two bytes, or that of one byte, which has this kind.
fn punctuation(b: u8, kind: u32, next: u8) -> Piece
    requires { IsKindOf b kind }
    ensures { result ≡ punctuation_of b next }
{
    match (next, b) {
        (b'=', b'=') => Piece::Token {
            kind: Type::DOUBLE_EQUAL,
            len: 2,
            taken: 2,
        },
        (b'=', b'!') => Piece::Token {
            kind: Type::NOT_EQUAL,
            len: 2,
            taken: 2,
        },
        _ => Piece::Token {
            kind,
            len: 1,
            taken: 1,
        },
    }
}

// 1 where the line begins with a space.
#[tactic(auto, unfolding(crate::specs::Lex::leading_space))]
fn leading_space(line: &[u8]) -> usize
    ensures { result ≡ leading_space line.now }
{
    if peek(line, 0) == b' ' { 1 } else { 0 }
}

// The fault of bytes that are no UTF-8.
fn invalid_utf8(len: usize, taken: usize) -> Piece
    ensures { result ≡ Piece.Fault e_invalid_utf8 len 0 taken }
{
    Piece::Fault {
        number: Diagnostic::INVALID_UTF8,
        len,
        seen: 0,
        taken,
    }
}

// A doc, of which `rest` is what follows `#!`. Most are of ASCII and are read in one pass, as
// strings are.
fn doc(rest: &[u8]) -> Piece
    ensures { result ≡ doc_of rest.now }
{
    let plain = skip_plain(b'\n', rest);
    if peek(rest, plain) == b'\n' {
        return Piece::Token {
            kind: Type::DOC,
            len: plain - leading_space(&rest[..plain]),
            taken: plain + 2,
        };
    }
    let n = line_end(rest);
    let line = &rest[..n];
    let space = leading_space(line);
    if is_utf8(&line[space..]) {
        Piece::Token {
            kind: Type::DOC,
            len: n - space,
            taken: n + 2,
        }
    } else {
        invalid_utf8(n + 1, n + 1) // at the line's last byte
    }
}

// A string, of which `rest` is what follows the quote. Most are of ASCII and are read in one pass.
fn string(rest: &[u8]) -> Piece
    ensures { result ≡ string_of rest.now }
{
    let plain = skip_plain(b'"', rest);
    if peek(rest, plain) == b'"' {
        return Piece::Token {
            kind: Type::S,
            len: plain,
            taken: plain + 2,
        };
    }
    let Some(n) = find_byte(b'"', rest) else {
        let line = line_end(rest) + 1;
        return Piece::Fault {
            number: Diagnostic::UNTERMINATED_STRING,
            len: line,
            seen: 0,
            taken: line,
        };
    };
    if is_utf8(&rest[..n]) {
        Piece::Token {
            kind: Type::S,
            len: n,
            taken: n + 2,
        }
    } else {
        invalid_utf8(n + 1, n + 2) // after the quote
    }
}

// A number with a dot before `from`: digits; a second dot ends it where a name follows, and else is
// a fault over the whole run of digits and dots.
fn double(classes: &Classes, rest: &[u8], from: usize) -> Piece
    requires { from ≤ length rest.now }
    ensures { let bytes = rest.now in
        result ≡ double_in (from + count_while is_num_cont (drop from bytes)) from bytes }
{
    let second = from + skip_digits(classes, &rest[from..]);
    if peek(rest, second) != b'.' || classes.begins_name(peek(rest, second + 1)) {
        return Piece::Token {
            kind: Type::D,
            len: second,
            taken: second,
        };
    }
    let n = second + skip_num_cont(classes, &rest[second..]);
    Piece::Fault {
        number: Diagnostic::INVALID_NUMBER,
        len: n,
        seen: 0,
        taken: n,
    }
}

// A number: it ends at a dot that a name follows, which is the parser's.
fn number(classes: &Classes, rest: &[u8]) -> Piece
    ensures { result ≡ number_of rest.now }
{
    let first = skip_digits(classes, rest);
    if peek(rest, first) != b'.' || classes.begins_name(peek(rest, first + 1)) {
        return Piece::Token {
            kind: Type::I,
            len: first,
            taken: first,
        };
    }
    double(classes, rest, first + 1)
}

// A name or a keyword.
fn name(classes: &Classes, rest: &[u8]) -> Piece
    ensures { result ≡ name_of rest.now }
{
    let n = skip_ident_cont(classes, rest);
    let kind = Type::from_keyword(&rest[..n]);
    Piece::Token {
        kind,
        len: n,
        taken: n,
    }
}

// The fault of a byte that begins nothing.
fn unknown_character(b: u8) -> Piece
    ensures { result ≡ Piece.Fault e_unknown_character 1 b 1 }
{
    Piece::Fault {
        number: Diagnostic::UNKNOWN_CHARACTER,
        len: 1,
        seen: b,
        taken: 1,
    }
}

// A doc or an unknown character, where no sign stands.
fn symbol(rest: &[u8]) -> Piece
    requires { (0 < length rest.now)
        × (punctuator_kind (get_or rest.now 0 0) ≡ 0) }
    ensures { result ≡ symbol_of rest.now }
{
    let b = rest[0];
    if b != b'#' {
        return unknown_character(b);
    }
    if peek(rest, 1) != b'!' {
        return unknown_character(b);
    }
    doc(&rest[2..])
}

// What stands where no blank or comment begins.
fn piece(classes: &Classes, rest: &[u8]) -> Piece
    requires { 0 < length rest.now }
    ensures { result ≡ piece_of rest.now }
{
    let b = rest[0];
    if let Some(kind) = Type::from_punctuator(b) {
        return punctuation(b, kind, peek(rest, 1));
    }
    if classes.begins_number(b) {
        return number(classes, rest);
    }
    if b == b'"' {
        return string(&rest[1..]);
    }
    if classes.begins_name(b) {
        return name(classes, rest);
    }
    symbol(rest)
}

// What stands at a position after blanks and comments, with the table of classes lent.
pub fn step_with(classes: &Classes, script: &[u8], pos: usize) -> Step
    ensures { result ≡ step_at script.now pos }
{
    Lexer::new(script).with_pos(pos).step(classes)
}

// What stands at a position after blanks and comments.
pub fn step(script: &[u8], pos: usize) -> Step
    ensures { result ≡ step_at script.now pos }
{
    step_with(&Classes::new(), script, pos)
}

// The first token at a position or after it, past all faults, and the position after it; Eof at the
// end.
// By steps: each has its next position, which a `for` over a Lexer keeps lent in its body.
pub fn next_token(script: &[u8], pos: usize) -> Next
    ensures { result ≡ next_at script.now pos }
{
    let mut p = pos;
    loop {
        match step(script, p) {
            Step::Token { token, next } => return Next { token, next },
            Step::Fault { fault: _, next } => p = next,
            Step::End { at } => return Next {
                token: Token::eof(at),
                next: at,
            },
        }
    }
}

// The script and a position in it.
#[derive(Clone, Copy)]
pub struct Lexer<'l> {
    pub input: &'l [u8],
    pub pos: usize,
}

impl<'l> Lexer<'l> {
    // A lexer at the start of the script.
    pub fn new(input: &'l [u8]) -> Lexer<'l>
        ensures { (result.input ≡ input.entry) × (result.pos ≡ 0) }
    {
        Lexer { input, pos: 0 }
    }

    // The first token at the position or after it.
    pub fn one(self) -> Next
        ensures { result ≡ next_at self.entry.input.now self.entry.pos }
    {
        next_token(self.input, self.pos)
    }

    // The lexer at another position of its script.
    pub fn with_pos(self, pos: usize) -> Lexer<'l>
        ensures { (result.input ≡ self.entry.input) × (result.pos ≡ pos) }
    {
        Lexer { pos, ..self }
    }

    // What stands at the position after blanks and comments, with the table of classes lent. The
    // reading itself: of a call to it the compiled code would copy the answer at each turn of a loop.
    pub fn step(&self, classes: &Classes) -> Step
        ensures { result ≡ step_at self.now.input.now self.now.pos }
    {
        let script = self.input;
        let start = skip_whitespace(classes, script, self.pos);
        if script.len() <= start {
            return Step::End { at: start };
        }
        match piece(classes, &script[start..]) {
            Piece::Token { kind, len, taken } => Step::Token {
                token: Token { kind, start, len },
                next: start + taken,
            },
            Piece::Fault {
                number,
                len,
                seen,
                taken,
            } => Step::Fault {
                fault: Fault {
                    number,
                    start,
                    len,
                    seen,
                },
                next: start + taken,
            },
        }
    }
}

// The tokens and faults from the position on. Behind the last the position is the script's end.
impl<'l> Iterator for Lexer<'l> {
    type Item = Result<Token, Fault>;

    ghost next_gives = { λ s r t. TakesStep s r t };

    ghost remaining = { λ s. at_most (length s.input.now - s.pos) };

    fn next(&mut self) -> Option<Result<Token, Fault>> {
        match self.step(&Classes::new()) {
            Step::Token { token, next } => {
                self.pos = next;
                Some(Ok(token))
            }
            Step::Fault { fault, next } => {
                self.pos = next;
                Some(Err(fault))
            }
            Step::End { at } => {
                self.pos = at;
                None
            }
        }
    }
}
