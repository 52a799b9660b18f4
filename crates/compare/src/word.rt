// When two tokens, or two lists of tokens, say the same.
ghost use Rattle.std.specs.Prelude.{◌≡◌};
ghost use Rattle.lex.specs.Spelling.{well_formed};
ghost use Rattle.rules.specs.Shape.{word, words};
ghost use Rattle.ast.specs.Decode.{token_at};
ghost use Rattle.compare.specs.Agree.{Agree, Decides};
ghost use Rattle.compare.specs.Shapes.{word_env};

use crate::pairs::Pairs;
use crate::view::View;
use ast::Run;
use ast::decode::token_at;
use ast::schema::TOKEN_WIDTH;
use lex::{Token, Type, same_bytes, spelling, well_formed};

// Two tokens of one kind, with one spelling: a fixed one, or one of their own.
fn agree_token(s: &[u8], t: Token, s2: &[u8], t2: Token) -> bool
    ensures { Decides result (Agree (word s.now t) (word s2.now t2)) }
{
    if t.kind != t2.kind {
        return false;
    }
    let Some(a) = spelling(s, t) else {
        return Type::fixed_spelling(t.kind).is_some();
    };
    let Some(b) = spelling(s2, t2) else {
        return false;
    };
    let a_end = a + t.len;
    let b_end = b + t2.len;
    same_bytes(&s[a..a_end], &s2[b..b_end])
}

// Two tokens in arrays of two trees, from cell `at` and cell `at2` on. By arrays and places, not by
// tokens: each of the eight calls would read both tokens by itself.
pub(crate) fn agree_token_at(
    a: &View,
    cells: &[u32],
    at: usize,
    b: &View,
    cells2: &[u32],
    at2: usize,
) -> bool
    ensures { let left = word a.now.script.now (token_at cells.now at) in
        let right = word b.now.script.now (token_at cells2.now at2) in
        Decides result (Agree left right) }
{
    agree_token(
        a.script,
        token_at(cells, at),
        b.script,
        token_at(cells2, at2),
    )
}

// The token in the list cells from `at` on is well formed.
pub(crate) fn formed_at(a: &View, at: usize) -> bool
    ensures { result ≡ well_formed a.now.script.now (token_at a.now.cells.now at) }
{
    well_formed(a.script, token_at(a.cells, at))
}

// Two lists of tokens.
pub(crate) fn agree_words(a: &View, r: Run, b: &View, r2: Run) -> bool
    ensures { let left = word_env a.now.script.now a.now.cells.now in
        let right = word_env b.now.script.now b.now.cells.now in
        Decides result (Agree (words left r) (words right r2)) }
{
    let Some(mut pairs) = Pairs::new(a.cells, r, b.cells, r2, TOKEN_WIDTH) else {
        return false;
    };
    pairs.all(|(at, at2)| agree_token_at(a, a.cells, at, b, b.cells, at2))
}
