// The records of the tree, read from the lent arrays.
ghost use Rattle.std.specs.Prelude.{◌≡◌, ◌+◌, ◌<◌, get_or, option_copied};
ghost use Rattle.ast.specs.Decode.{token_at, run_at, record_at};
ghost use Rattle.ast.specs.Decode.{node_of, type_of, node_at, type_at, option_of};

use crate::{Node, NodeId, NodeKind, Run, TypeExpr, TypeExprId, TypeExprKind};
use lex::Token;

// Cell `at + k`; 0 behind the end. By two tests: by `get`, names are compared more slowly by half.
// 0 behind the end and no Option: a record is told by its kind, and 0 is none of a node or type.
pub fn cell(a: &[u32], at: usize, k: usize) -> u32
    ensures { result ≡ get_or a.now (at + k) 0 }
{
    if at < a.len() && k < a.len() - at {
        a[at + k]
    } else {
        0
    }
}

// The token whose cells begin at `at`. An array and a place, and no part of the array: the place
// may lie behind its end, where no part begins.
pub fn token_at(a: &[u32], at: usize) -> Token
    ensures { result ≡ token_at a.now at }
{
    let kind = cell(a, at, 0);
    let start = cell(a, at, 1);
    let len = cell(a, at, 2);
    Token {
        kind,
        start: start as usize,
        len: len as usize,
    }
}

// The run whose cells begin at `at`, which may lie behind the end as well.
pub fn run_at(a: &[u32], at: usize) -> Run
    ensures { result ≡ run_at a.now at }
{
    let start = cell(a, at, 0);
    let len = cell(a, at, 1);
    Run { start, len }
}

// The node that a record's cells hold; none where the kind is unknown.
#[tactic(auto, unfolding(crate::specs::Decode::node_of, crate::specs::Decode::nodes_by_kind))]
fn node_of(c: &[u32; Node::WIDTH]) -> Option<Node>
    ensures { option_of result ≡ node_of c.now }
{
    let id = c[1];
    match c[0] {
        NodeKind::ATOM => Some(Node::Atom {
            id,
            raw: token_at(c, 2),
        }),
        NodeKind::IDENT => Some(Node::Ident {
            id,
            name: token_at(c, 2),
        }),
        NodeKind::BIN => Some(Node::Bin {
            id,
            op: token_at(c, 2),
            lhs: NodeId(c[5]),
            rhs: NodeId(c[6]),
        }),
        NodeKind::UNARY => Some(Node::Unary {
            id,
            op: token_at(c, 2),
            rhs: NodeId(c[5]),
        }),
        NodeKind::LET => Some(Node::Let {
            id,
            docs: run_at(c, 2),
            name: token_at(c, 4),
            rhs: NodeId(c[7]),
        }),
        NodeKind::FN => Some(Node::Fn {
            id,
            docs: run_at(c, 2),
            name: token_at(c, 4),
            args: run_at(c, 7),
            return_type: TypeExprId(c[9]),
            body: run_at(c, 10),
        }),
        NodeKind::MATCH => Some(Node::Match {
            id,
            cases: run_at(c, 2),
            default_token: token_at(c, 4),
            default_body: run_at(c, 7),
        }),
        NodeKind::CALL => Some(Node::Call {
            id,
            target: NodeId(c[2]),
            args: run_at(c, 3),
        }),
        NodeKind::FIELD => Some(Node::Field {
            id,
            target: NodeId(c[2]),
            name: token_at(c, 3),
        }),
        NodeKind::CAST => Some(Node::Cast {
            id,
            src: token_at(c, 2),
            lhs: NodeId(c[5]),
            rhs: TypeExprId(c[6]),
        }),
        NodeKind::IMPORT => Some(Node::Import {
            id,
            src: token_at(c, 2),
            pkgs: run_at(c, 5),
        }),
        NodeKind::EXTERN => Some(Node::Extern {
            id,
            src: token_at(c, 2),
            docs: run_at(c, 5),
            name: token_at(c, 7),
            fns: run_at(c, 10),
        }),
        NodeKind::RECORD => Some(Node::Record {
            id,
            src: token_at(c, 2),
            fields: run_at(c, 5),
        }),
        NodeKind::ARRAY => Some(Node::Array {
            id,
            src: token_at(c, 2),
            members: run_at(c, 5),
        }),
        _ => None,
    }
}

// The type that a record's cells hold; none where the kind is unknown.
#[tactic(auto, unfolding(crate::specs::Decode::type_of, crate::specs::Decode::types_by_kind))]
fn type_of(c: &[u32; TypeExpr::WIDTH]) -> Option<TypeExpr>
    ensures { option_of result ≡ type_of c.now }
{
    match c[0] {
        TypeExprKind::ATOM => Some(TypeExpr::Atom(token_at(c, 1))),
        TypeExprKind::FOREIGN => Some(TypeExpr::Foreign(token_at(c, 1))),
        TypeExprKind::OPTION => Some(TypeExpr::Option(TypeExprId(c[1]))),
        TypeExprKind::ARRAY => Some(TypeExpr::Array(TypeExprId(c[1]))),
        TypeExprKind::RECORD => Some(TypeExpr::Record {
            src: token_at(c, 1),
            fields: run_at(c, 4),
        }),
        _ => None,
    }
}

// The cells of record `i`, of `N` cells each; none where it lies outside.
#[tactic(auto, using(crate::proofs::Records::record_is))]
fn record<const N: usize>(cells: &[u32], i: u32) -> Option<&[u32; N]>
    requires { 0 < N }
    ensures { option_copied result ≡ record_at N cells.now i }
{
    cells.as_chunks().0.get(i as usize)
}

// The record of a node; none where it lies outside or its kind is unknown.
#[tactic(auto, unfolding(crate::specs::Decode::node_at))]
pub fn node(nodes: &[u32], id: NodeId) -> Option<Node>
    ensures { option_of result ≡ node_at nodes.now id.0 }
{
    node_of(record(nodes, id.0)?)
}

// The record of a type; none where it lies outside or its kind is unknown.
#[tactic(auto, unfolding(crate::specs::Decode::type_at))]
pub fn type_expr(types: &[u32], id: TypeExprId) -> Option<TypeExpr>
    ensures { option_of result ≡ type_at types.now id.0 }
{
    type_of(record(types, id.0)?)
}
