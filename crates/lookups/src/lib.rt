// Where a node starts, and the token of a type.
#![tactic(auto)]

ghost use Rattle.std.specs.Prelude.{◌≡◌, ◌≤◌};
ghost use Rattle.std.specs.Bool.{⊤};
ghost use Rattle.lex.specs.Answer.{answered, answer};
ghost use Rattle.ast.specs.Decode.{node_at, type_at};
ghost use Rattle.ast.specs.Answer.{lent_of, cells_of};
ghost use Rattle.lookups.specs.Lookup.{inside, record_asked, token_start, match_start};
ghost use Rattle.lookups.specs.Lookup.{well_formed_token, start_at};
ghost use Rattle.lookups.specs.Lookup.{node_start, type_token, start_answer};
ghost use Rattle.lookups.specs.Descent.{start_or, as_start, as_type_token, step_from, step_of};
ghost use Rattle.lookups.specs.Descent.{Innermost, inner_of, inner_or, own_token};

use ast::decode::{node, token_at, type_expr};
use ast::schema::CASE_WIDTH;
use ast::{Node, NodeId, Run, Tree, TypeExpr, TypeExprId};
use lex::{Refusal, Token, as_str_len, well_formed};

// Record `i` of an array is asked about: `width` cells a record, of which `count` are in use. These
// are values, since the array is either the nodes or the types of the tree.
#[tactic(auto, unfolding(crate::specs::Lookup::record_asked, ast::specs::Answer::unless))]
fn check_record(
    tree: &Tree,
    count: u32,
    width: usize,
    records: &[u32],
    i: u32,
) -> Result<(), Refusal>
    requires { width ≤ 16 }
    ensures { let asked = record_asked {A = ⊤} (lent_of tree.now) count width records.now i in
        answered result ≡ asked (answer tt) }
{
    tree.refusal()?;
    if count <= i {
        return Err(Refusal::Outside);
    }
    if records.len() < width * i as usize + width {
        return Err(Refusal::Outside);
    }
    Ok(())
}

// The start of a token, of which an array holds the low 32 bits: `%`, since `try_from` refuses a
// start that has more, and the script here has any length.
#[tactic(auto, unfolding(crate::specs::Lookup::token_start, crate::specs::Descent::as_start))]
fn token_start(script: &[u8], t: Token) -> Result<Option<u32>, Refusal>
    ensures { result ≡ as_start (token_start script.now t) }
{
    if well_formed(script, t) {
        Ok(Some((t.start % 4294967296) as u32))
    } else {
        Err(Refusal::Malformed)
    }
}

// A run of members lies in the cells, `width` cells a member.
fn is_inside(width: usize, cells: &[u32], run: Run) -> bool
    requires { width ≤ 16 }
    ensures { result ≡ inside width cells.now run }
{
    run.start as usize + run.len as usize * width <= cells.len()
}

// The token of the first case, or that of the default.
#[tactic(auto, unfolding(crate::specs::Lookup::match_start, crate::specs::Descent::as_start))]
fn match_start(tree: &Tree, cases: Run, default: Token) -> Result<Option<u32>, Refusal>
    ensures { let cells = cells_of (lent_of tree.now) in
        result ≡ as_start (match_start tree.now.script.now cells cases default) }
{
    let cells = tree.cells();
    if !is_inside(CASE_WIDTH, cells, cases) {
        return Err(Refusal::Malformed);
    }
    if cases.len == 0 {
        return token_start(tree.script, default);
    }
    token_start(tree.script, token_at(cells, cases.start as usize))
}

// The record of node `id`: the child whose start it has, where it has that of a child. Else `start`
// becomes its own, unless it has none; an operator's stands there for that of a child with none.
#[tactic(auto, unfolding(crate::specs::Descent::step_of, crate::specs::Descent::array_step, crate::specs::Descent::as_start))]
fn start_step(tree: &Tree, id: NodeId, start: &mut Result<Option<u32>, Refusal>) -> Option<NodeId>
    ensures { let lent = lent_of tree.now in
        let read = node_at lent.nodes id.0 in
        step_from result start.new ≡ step_of lent.script (cells_of lent) start.old read }
{
    let Some(record) = node(tree.nodes, id) else {
        *start = Err(Refusal::Malformed);
        return None;
    };
    match record {
        Node::Atom { raw: token, .. }
        | Node::Ident { name: token, .. }
        | Node::Unary { op: token, .. }
        | Node::Let { name: token, .. }
        | Node::Fn { name: token, .. }
        | Node::Cast { src: token, .. }
        | Node::Import { src: token, .. }
        | Node::Extern { src: token, .. }
        | Node::Record { src: token, .. } => {
            *start = token_start(tree.script, token);
            None
        }
        Node::Bin { op, lhs, .. } => {
            *start = token_start(tree.script, op);
            Some(lhs)
        }
        Node::Match {
            cases,
            default_token,
            ..
        } => {
            *start = match_start(tree, cases, default_token);
            None
        }
        Node::Call { target, .. } | Node::Field { target, .. } => Some(target),
        Node::Array { members, .. } => {
            let cells = tree.cells();
            if !is_inside(1, cells, members) {
                *start = Err(Refusal::Malformed);
                return None;
            }
            if members.len == 0 {
                return None;
            }
            Some(NodeId(cells[members.start as usize]))
        }
    }
}

// Where node `id` starts, into `start`, which stays where the node has no start. The call is the
// last thing done, and passes nothing that lies in this function's frame, so that a long chain
// takes no stack. A start that is passed on and answered lies there: then a chain of 32,767 links
// does not fit into 256 KiB.
fn find_start(tree: &Tree, id: NodeId, start: &mut Result<Option<u32>, Refusal>)
    ensures { let lent = lent_of tree.now in
        let read = start_at lent.script (cells_of lent) lent.nodes id.0 in
        start.new ≡ start_or start.old (as_start read) }
{
    let Some(child) = start_step(tree, id, start) else {
        return;
    };
    if child.0 < id.0 {
        find_start(tree, child, start)
    } else {
        *start = Err(Refusal::Malformed)
    }
}

// Where a node starts.
pub fn node_start(tree: &Tree, id: NodeId) -> Result<Option<u32>, Refusal>
    ensures { start_answer result ≡ node_start (lent_of tree.now) id.0 }
{
    check_record(tree, tree.counts.nodes, Node::WIDTH, tree.nodes, id.0)?;
    let mut start = Ok(None);
    find_start(tree, id, &mut start);
    start
}

#[tactic(auto, unfolding(crate::specs::Lookup::well_formed_token, crate::specs::Lookup::spelled, crate::specs::Descent::as_type_token))]
fn check_token(script: &[u8], t: Token) -> Result<Token, Refusal>
    ensures { result ≡ as_type_token (well_formed_token script.now t) }
{
    if well_formed(script, t) {
        Ok(Token {
            len: as_str_len(t),
            ..t
        })
    } else {
        Err(Refusal::Malformed)
    }
}

// What an Option or an Array holds.
#[tactic(auto, unfolding(crate::specs::Descent::inner_of))]
fn inner_of(types: &[u32], id: TypeExprId) -> Option<TypeExprId>
    ensures { inner_or id.0 result ≡ inner_of (type_at types.now id.0) id.0 }
{
    match type_expr(types, id)? {
        TypeExpr::Option(inner) | TypeExpr::Array(inner) => Some(inner),
        TypeExpr::Atom(_) | TypeExpr::Foreign(_) | TypeExpr::Record { .. } => None,
    }
}

// The type whose token type `id` has: the first on the way down that holds none below its own
// number. The call is the last thing done, and passes nothing that lies in this function's frame,
// so that a long chain takes no stack.
fn innermost(tree: &Tree, id: TypeExprId) -> TypeExprId
    ensures { Innermost tree.now.types.now id.0 result.0 }
{
    match inner_of(tree.types, id) {
        Some(inner) if inner.0 < id.0 => innermost(tree, inner),
        _ => id,
    }
}

// The token of a type that holds none below its own number.
#[tactic(auto, unfolding(crate::specs::Descent::own_token, crate::specs::Descent::as_type_token))]
fn token_here(script: &[u8], types: &[u32], id: TypeExprId) -> Result<Token, Refusal>
    ensures { let token = own_token script.now (type_at types.now id.0) in
        result ≡ as_type_token token }
{
    match type_expr(types, id) {
        Some(TypeExpr::Atom(src) | TypeExpr::Foreign(src) | TypeExpr::Record { src, .. }) => {
            check_token(script, src)
        }
        Some(TypeExpr::Option(_) | TypeExpr::Array(_)) | None => Err(Refusal::Malformed),
    }
}

// The token of a type.
pub fn type_token(tree: &Tree, id: TypeExprId) -> Result<Token, Refusal>
    ensures { answered result ≡ type_token (lent_of tree.now) id.0 }
{
    check_record(tree, tree.counts.types, TypeExpr::WIDTH, tree.types, id.0)?;
    token_here(tree.script, tree.types, innermost(tree, id))
}
