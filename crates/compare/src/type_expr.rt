// When two types, or two lists of arguments or of fns, agree. The number of a type falls from call
// to call; the limits stand beside the views, as in node.rt.
ghost use Rattle.rules.specs.Shape.{params, fns};
ghost use Rattle.compare.specs.Agree.{Agree, Decides};
ghost use Rattle.compare.specs.Shapes.{types_below, type_env};

use crate::kind::kind_at;
use crate::pairs::Pairs;
use crate::view::View;
use crate::word::{agree_token_at, agree_words};
use ast::decode::{cell, run_at};
use ast::schema::{FN_WIDTH, PARAM_WIDTH};
use ast::{Run, TypeExpr, TypeExprId, TypeExprKind};

// Type `i`, below `n`, and type `j`, below `m`. What a type holds, or the last field of a record,
// is the last thing done, so that a long chain takes no stack. The loop over a record's fields is
// not that of `agree_params`: a call of it would take stack at each level. The tests of the numbers
// and kinds are those of `agree_node`: one function of both would take eight values.
pub(crate) fn agree_type(a: &View, n: u32, i: TypeExprId, b: &View, m: u32, j: TypeExprId) -> bool
    ensures { let left =
        types_below a.now.script.now a.now.cells.now a.now.types.now in
        let right =
        types_below b.now.script.now b.now.cells.now b.now.types.now in
        Decides result (Agree (left n i.0) (right m j.0)) }
{
    if n <= i.0 {
        return false;
    }
    if m <= j.0 {
        return false;
    }
    let Some(kind) = kind_at(a.types, TypeExpr::WIDTH, TypeExprKind::RECORD, i.0) else {
        return false;
    };
    let Some(kind2) = kind_at(b.types, TypeExpr::WIDTH, TypeExprKind::RECORD, j.0) else {
        return false;
    };
    if kind != kind2 {
        return false;
    }
    let at = TypeExpr::WIDTH * i.0 as usize;
    let at2 = TypeExpr::WIDTH * j.0 as usize;
    if kind == TypeExprKind::OPTION || kind == TypeExprKind::ARRAY {
        let inner = TypeExprId(cell(a.types, at, 1));
        let inner2 = TypeExprId(cell(b.types, at2, 1));
        return agree_type(a, i.0, inner, b, j.0, inner2);
    }
    if !agree_token_at(a, a.types, at + 1, b, b.types, at2 + 1) {
        return false;
    }
    if kind != TypeExprKind::RECORD {
        return true;
    }
    let r = run_at(a.types, at + 4);
    let r2 = run_at(b.types, at2 + 4);
    let Some(mut pairs) = Pairs::new(a.cells, r, b.cells, r2, PARAM_WIDTH) else {
        return false;
    };
    // A `while`, since the pairs that are left say which field is the last. The places of the last
    // pair, taken off before a `for`, would take 32 bytes of stack at each level.
    while let Some((at, at2)) = pairs.next() {
        if !agree_token_at(a, a.cells, at, b, b.cells, at2) {
            return false;
        }
        let field = TypeExprId(cell(a.cells, at, 3));
        let field2 = TypeExprId(cell(b.cells, at2, 3));
        if pairs.left == 0 {
            return agree_type(a, i.0, field, b, j.0, field2);
        }
        if !agree_type(a, i.0, field, b, j.0, field2) {
            return false;
        }
    }
    true
}

// Names with their types, those below `n` and `m`.
pub(crate) fn agree_params(a: &View, n: u32, r: Run, b: &View, m: u32, r2: Run) -> bool
    ensures { let left =
        type_env a.now.script.now a.now.cells.now a.now.types.now n in
        let right =
        type_env b.now.script.now b.now.cells.now b.now.types.now m in
        Decides result (Agree (params left r) (params right r2)) }
{
    let Some(mut pairs) = Pairs::new(a.cells, r, b.cells, r2, PARAM_WIDTH) else {
        return false;
    };
    pairs.all(move |(at, at2)| {
        let of = TypeExprId(cell(a.cells, at, 3));
        let of2 = TypeExprId(cell(b.cells, at2, 3));
        agree_token_at(a, a.cells, at, b, b.cells, at2) && agree_type(a, n, of, b, m, of2)
    })
}

// The fns of two externs.
pub(crate) fn agree_fns(a: &View, n: u32, r: Run, b: &View, m: u32, r2: Run) -> bool
    ensures { let left =
        type_env a.now.script.now a.now.cells.now a.now.types.now n in
        let right =
        type_env b.now.script.now b.now.cells.now b.now.types.now m in
        Decides result (Agree (fns left r) (fns right r2)) }
{
    let Some(pairs) = Pairs::new(a.cells, r, b.cells, r2, FN_WIDTH) else {
        return false;
    };
    // a `for`, since under `all` no proof was found that the cells' places fit a word
    for (at, at2) in pairs {
        if !agree_words(a, run_at(a.cells, at), b, run_at(b.cells, at2)) {
            return false;
        }
        if !agree_token_at(a, a.cells, at + 2, b, b.cells, at2 + 2) {
            return false;
        }
        if !agree_params(
            a,
            n,
            run_at(a.cells, at + 5),
            b,
            m,
            run_at(b.cells, at2 + 5),
        ) {
            return false;
        }
        let answer = TypeExprId(cell(a.cells, at, 7));
        let answer2 = TypeExprId(cell(b.cells, at2, 7));
        if !agree_type(a, n, answer, b, m, answer2) {
            return false;
        }
    }
    true
}
