// The tables and tests of items and expressions, and the nodes with none below them.
#![tactic(auto)]

ghost use Rattle.std.specs.Prelude.{◌≡◌, List, ◌∷◌, ◌++◌, ℕ, ◌<◌, get_or, Ok};
ghost use Rattle.tokens.specs.Table.{token_of, token_at};
ghost use Rattle.rules.specs.Combinators.{push_node};
ghost use Rattle.ast.specs.Layout.{token_cells, run_cells};
ghost use Rattle.ast.specs.declared.Node.TheVariants as N;
ghost use Rattle.ast.specs.Decode.{option_of};
ghost use Rattle.rules.specs.Rules.{stage_one, atom, ident, field_access, cast, breaks_off};
ghost use Rattle.parser_state.specs.Represents.{reading, code_of, code_after};
ghost use Rattle.parser_state.specs.Keeps.{KeepsNodesTypes, KeepsTypesLists};
ghost use Rattle.parser_state.specs.Refines.{Refines, stack_unchanged, Gives, ReadsNode};
ghost use Rattle.parser_state.specs.Refines.{GivesStep, ReadsStep, Pushes, Rules, deeper};
ghost use Rattle.parser_state.specs.Wherever.{AnyTypesLists, AnyNodesTypes};
ghost use Rattle.parser_operators.specs.Tests.{operand_class, class_number, begins_expr, call_at};
ghost use Rattle.parser_operators.specs.Tests.{postfix_follows, infix_follows};
ghost use Rattle.parser_operators.specs.Tests.{operator_of, left_powers};
ghost use Rattle.parser_operators.specs.Matches.{default_of, match_node};

use ast::{Node, NodeId, NodeKind, Run, TypeExprId};
use lex::{Diagnostic, Type, is_prefix_sign};
use parser_state::Parser;
use parser_types::parse_type;
use tokens::Entry;

// ---- tables

// The binding powers on the left of `+` `-` `*` `/` `%` `==` `<` `>` `!=`, by their numbers. The
// one on the right is the left one plus 1 (`binary`). A table by number is the form that document
// 01 names, so a sign has a number and is no enum.
const LEFT_POWERS: [u32; 9] = [1, 1, 3, 3, 3, 0, 0, 0, 0];

// The power of a prefix sign.
pub const PREFIX_POWER: u32 = 5;

// What an operand begins with: a record, an array, an atom, a name, a bracket or a sign.
#[derive(Clone, Copy, Debug, PartialEq, Eq)]
pub enum Operand {
    Record,
    Array,
    Atom,
    Name,
    Group,
    Sign,
}

// What begins an operand; none where the kind begins none. A `match`, which is compiled to one
// jump: a constant array would be written out at each use.
#[tactic(auto, unfolding(crate::specs::Tests::operand_class, rules::specs::Combinators::choose))]
pub fn operand_class(kind: u32) -> Option<Operand>
    ensures { class_number result ≡ operand_class kind }
{
    match kind {
        Type::CURLY_LEFT => Some(Operand::Record),
        Type::BRAKET_LEFT => Some(Operand::Array),
        Type::S | Type::I | Type::D | Type::TRUE | Type::FALSE => Some(Operand::Atom),
        Type::IDENT => Some(Operand::Name),
        Type::BRACE_LEFT => Some(Operand::Group),
        Type::PLUS | Type::MINUS => Some(Operand::Sign),
        _ => None,
    }
}

// The number of an infix sign by its kind.
#[tactic(auto, unfolding(crate::specs::Tests::operator_number, rules::specs::Combinators::choose))]
pub fn operator(kind: u32) -> Option<u32>
    ensures { result ≡ operator_of kind }
{
    match kind {
        Type::PLUS => Some(0),
        Type::MINUS => Some(1),
        Type::ASTERIKS => Some(2),
        Type::SLASH => Some(3),
        Type::PERCENT => Some(4),
        Type::DOUBLE_EQUAL => Some(5),
        Type::LESS_THAN => Some(6),
        Type::GREATER_THAN => Some(7),
        _ => None,
    }
}

// The power on the left of an infix sign, by its number; 0 for another number.
pub fn left_power(n: u32) -> u32
    ensures { result ≡ get_or left_powers n 0 }
{
    LEFT_POWERS.get(n as usize).copied().unwrap_or(0)
}

// The power on the left of an infix sign; none where the kind is no such sign.
pub fn infix_power(kind: u32) -> Option<u32>
    ensures { option_of result ≡ stage_one kind }
{
    // of `map(left_power)` no proof was found
    match operator(kind) {
        Some(n) => Some(left_power(n)),
        None => None,
    }
}

// ---- whether an item is an expression, and a loop over an expression goes on

// No doc is pending or read, and none of the words that begin another item: the kinds from Doc to
// Match.
#[tactic(auto, unfolding(crate::specs::Tests::begins_expr))]
pub fn begins_expr(p: &Parser) -> bool
    ensures { result ≡ begins_expr (reading p.now) }
{
    let k = p.kind();
    p.used.docs == 0 && (k < Type::DOC || Type::MATCH < k)
}

// An Ident or a Field that is there can be called.
fn is_callable_target(p: &Parser, n: NodeId) -> bool
    ensures { result ≡ call_at p.now.nodes.now p.now.used.nodes n }
{
    let at = Node::WIDTH * n.0 as usize;
    n.0 < p.used.nodes
        && at < p.nodes.len()
        && matches!(p.nodes[at], NodeKind::IDENT | NodeKind::FIELD)
}

// A `.`, or a `(` behind a node that can be called.
#[tactic(auto, unfolding(crate::specs::Tests::postfix_by))]
pub fn postfix_follows(p: &Parser, n: NodeId) -> bool
    ensures { result ≡ postfix_follows p.now.nodes.now (reading p.now) n }
{
    match p.kind() {
        Type::DOT => true,
        Type::BRACE_LEFT => is_callable_target(p, n),
        _ => false,
    }
}

// A sign that begins an operand ends the one before it.
#[tactic(auto, using(crate::proofs::Tables::here, crate::proofs::Tables::past, crate::proofs::Tables::past_all), unfolding(rules::specs::Rules::breaks_off))]
fn breaks_off(script: &[u8], t: Entry) -> bool
    ensures { result ≡ breaks_off script.now (token_of t) }
{
    matches!(t.kind, Type::PLUS | Type::MINUS) && is_prefix_sign(script, t.start as usize)
}

// `as`, or an infix sign whose left power is no less.
pub fn infix_follows(p: &Parser, script: &[u8], least: u32) -> bool
    ensures { result ≡ infix_follows script.now (reading p.now) least }
{
    let t = p.cur;
    if t.kind == Type::AS {
        return true;
    }
    match infix_power(t.kind) {
        Some(left) => !breaks_off(script, t) && least <= left,
        None => false,
    }
}

// ---- nodes with none below them

// An expr = atom. Beside `ident`: three lines each, each named by its rule.
pub fn atom(p: &mut Parser, tokens: &[u32]) -> NodeId
    requires { 1 < p.old.cur.kind }
    ensures reads { ReadsNode tokens.now atom p.old p.new (Ok result) }
    ensures wherever { AnyTypesLists (Refines tokens.now 0 0 atom (Gives (Ok result))
        stack_unchanged 1 0 8) (code_of p.old) (code_of p.new) }
    ensures keeps { KeepsTypesLists p.old p.new }
{
    let raw = p.cur;
    p.advance(tokens);
    p.push_token_node(NodeKind::ATOM, raw, 0, 0)
}

// An expr = ident
pub fn ident(p: &mut Parser, tokens: &[u32]) -> NodeId
    requires { 1 < p.old.cur.kind }
    ensures reads { ReadsNode tokens.now ident p.old p.new (Ok result) }
    ensures wherever { AnyTypesLists (Refines tokens.now 0 0 ident (Gives (Ok result))
        stack_unchanged 1 0 8) (code_of p.old) (code_of p.new) }
    ensures keeps { KeepsTypesLists p.old p.new }
{
    let name = p.cur;
    p.advance(tokens);
    p.push_token_node(NodeKind::IDENT, name, 0, 0)
}

// An expr = expr "." ident
pub fn field_access(p: &mut Parser, tokens: &[u32], lhs: NodeId) -> Result<NodeId, Diagnostic>
    requires { 1 < p.old.cur.kind }
    ensures reads { ReadsStep tokens.now (field_access lhs) p.old p.new result }
    ensures wherever { AnyTypesLists (Refines tokens.now 0 0 (field_access lhs) (GivesStep result)
        stack_unchanged 1 0 0) (code_of p.old) (code_after p.new result) }
    ensures keeps { KeepsTypesLists p.old p.new }
{
    p.advance(tokens);
    let name = p.cur;
    p.expect_ident(tokens)?;
    Ok(p.push_field(lhs, name))
}

// A Cast is pushed from a node and a type, one of each.
fn push_cast(p: &mut Parser, src: Entry, lhs: NodeId, rhs: TypeExprId) -> NodeId
    ensures reads { (tokens : List ℕ) →
        Refines tokens 1 0 (push_node (λ id. N.Cast id (token_of src) lhs rhs)) (λ i. i ≡ result)
        stack_unchanged 0 0 0 (code_of p.old) (code_of p.new) }
    ensures keeps { KeepsTypesLists p.old p.new }
{
    p.push_token_node(NodeKind::CAST, src, lhs.0, rhs.0)
}

// An expr = expr "as" type
pub fn cast(
    p: &mut Parser,
    tokens: &[u32],
    lhs: NodeId,
    levels: usize,
) -> Result<NodeId, Diagnostic>
    requires { 1 < p.old.cur.kind }
    ensures { (rules : Rules) →
        ReadsStep tokens.now (cast (deeper rules levels) lhs) p.old p.new result }
{
    let src = p.cur;
    p.advance(tokens);
    let rhs = parse_type(p, tokens, levels)?;
    Ok(push_cast(p, src, lhs, rhs))
}

// ---- the cases of a match

// The default of a match: its token and body.
#[derive(Clone, Copy)]
pub struct DefaultBlock {
    pub token: Entry,
    pub run: Run,
}

// The default of a match so far, and how many cases there are.
#[derive(Clone, Copy, Default)]
pub struct CasesRead {
    pub default: Option<DefaultBlock>,
    pub members: u32,
}

// The cells of a case.
#[tactic(auto, unfolding(ast::specs::Layout::token_cells, ast::specs::Layout::run_cells))]
pub fn push_case(p: &mut Parser, t: Entry, n: NodeId, body: Run)
    ensures reads { (tokens : List ℕ) →
        Pushes tokens 12 (token_cells (token_of t) ++ (n.0 ∷ run_cells body)) (code_of p.old)
        (code_of p.new) }
    ensures wherever { (tokens : List ℕ) →
        AnyNodesTypes (Pushes tokens 12 (token_cells (token_of t) ++ (n.0 ∷ run_cells body)))
        (code_of p.old) (code_of p.new) }
    ensures keeps { KeepsNodesTypes p.old p.new }
{
    p.push_cells(&[body.len, body.start, n.0, t.len, t.start, t.kind]);
}

// The node of a match, record `at` being that of the token after `match`; the reading fails where
// it has no default.
pub fn match_node(
    p: &mut Parser,
    tokens: &[u32],
    at: u32,
    cases: Run,
    default: Option<DefaultBlock>,
) -> Result<NodeId, Diagnostic>
    ensures reads { Refines tokens.now 1 0
        (match_node (token_at tokens.now at) (default_of default) cases) (Gives result)
        stack_unchanged 0 0 0 (code_of p.old) (code_after p.new result) }
    ensures wherever { AnyTypesLists (Refines tokens.now 1 0
        (match_node (token_at tokens.now at) (default_of default) cases) (Gives result)
        stack_unchanged 0 0 0) (code_of p.old) (code_after p.new result) }
    ensures keeps { KeepsTypesLists p.old p.new }
{
    match default {
        Some(block) => Ok(p.push_match(cases, block.token, block.run)),
        None => Err(p.fail_at(tokens, Diagnostic::MATCH_WITHOUT_A_DEFAULT, at)),
    }
}
