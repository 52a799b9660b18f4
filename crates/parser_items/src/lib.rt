// The readers of items and expressions of parser.rs, which call each other.
#![tactic(auto)]

ghost use Rattle.std.specs.Prelude.{◌≡◌, ◌<◌, true};
ghost use Rattle.lex.specs.Kind.{k_curly_right, k_braket_right};
ghost use Rattle.tokens.specs.Table.{token_at};
ghost use Rattle.rules.specs.Combinators.{list_until, by_kind};
ghost use Rattle.rules.specs.Rules.{node_member, item_by_kind, parse_let, parse_fn, parse_body};
ghost use Rattle.rules.specs.Rules.{parse_match, next_case, field, record_literal, array_literal};
ghost use Rattle.rules.specs.Rules.{group, unary, operand, call, postfix_step, postfix, binary};
ghost use Rattle.rules.specs.Rules.{infix_step, infixes, prefix_power, stage_one};
ghost use Rattle.parser_state.specs.Represents.{reading, code_of, code_after};
ghost use Rattle.parser_state.specs.Refines.{ReadsNode, ReadsStep, LoopsNode, ReadsList};
ghost use Rattle.parser_state.specs.Refines.{ReadsMember, rules_of, deeper, member_follows};
ghost use Rattle.parser_state.proofs.Rounds.{Again};
ghost use Rattle.parser_operators.specs.Tests.{postfix_follows, infix_follows};
ghost use Rattle.parser_operators.specs.Matches.{cases_grown, CasesAre, CasesGiven};
ghost use Rattle.parser_operators.specs.Matches.{case_cells, match_rest};

use ast::{NodeId, NodeKind, Run};
use lex::{Diagnostic, Type};
use parser_operators::{
    CasesRead, DefaultBlock, Operand, PREFIX_POWER, atom, begins_expr, cast, field_access, ident,
    infix_follows, infix_power, match_node, operand_class, postfix_follows, push_case,
};
use parser_state::Parser;
use parser_types::{fn_return, parse_args, parse_extern, parse_import};

// A script and the table of its tokens.
#[derive(Clone, Copy)]
pub struct Source<'a> {
    pub script: &'a [u8],
    pub tokens: &'a [u32],
}

// ---- items

// An item of the script or of a list. Most are expressions: these are read without `parse_prefix`
// in between, whose call takes a fourth of the time of a short one.
#[cycle(grammar)]
pub fn member(p: &mut Parser, source: &Source, levels: usize) -> Result<NodeId, Diagnostic>
    ensures { let rules = deeper (rules_of source.now.script.now) levels in
        ReadsNode source.now.tokens.now rules.prefix p.old p.new result }
{
    if levels != 0 && begins_expr(p) {
        return parse_expr(p, source, 0, levels - 1);
    }
    parse_prefix(p, source, levels)
}

// prefix = import | let | fn | match | expr. The levels are tested here, in `parse_expr` and in
// `parse_type`: a test of its own would answer an Option, which each of the three tests again.
#[cycle(grammar)]
fn parse_prefix(p: &mut Parser, source: &Source, levels: usize) -> Result<NodeId, Diagnostic>
    ensures { let rules = deeper (rules_of source.now.script.now) levels in
        ReadsNode source.now.tokens.now rules.prefix p.old p.new result }
{
    if levels == 0 {
        return Err(p.fail_expecting(Diagnostic::TOO_DEEP, 0));
    }
    if begins_expr(p) {
        return parse_expr(p, source, 0, levels - 1);
    }
    p.collect_docs(source.tokens);
    item(p, source, levels - 1)
}

// A prefix behind its docs.
#[cycle(grammar)]
fn item(p: &mut Parser, source: &Source, levels: usize) -> Result<NodeId, Diagnostic>
    ensures { let rules = deeper (rules_of source.now.script.now) levels in
        ReadsNode source.now.tokens.now (by_kind (item_by_kind rules)) p.old p.new result }
{
    match p.kind() {
        Type::IMPORT => parse_import(p, source.tokens),
        Type::LET => parse_let(p, source, levels),
        Type::FN => parse_fn(p, source, levels),
        Type::EXTERN => parse_extern(p, source.tokens, levels),
        _ => {
            p.require_no_docs()?;
            if p.kind() == Type::MATCH {
                parse_match(p, source, levels)
            } else {
                parse_expr(p, source, 0, levels)
            }
        }
    }
}

// let = "let" ident "=" prefix
#[cycle(grammar)]
fn parse_let(p: &mut Parser, source: &Source, levels: usize) -> Result<NodeId, Diagnostic>
    ensures { let rules = deeper (rules_of source.now.script.now) levels in
        ReadsNode source.now.tokens.now (parse_let rules) p.old p.new result }
{
    let docs = p.take_docs();
    p.expect(source.tokens, Type::LET)?;
    let name = p.cur;
    p.expect_ident(source.tokens)?;
    p.expect(source.tokens, Type::EQUAL)?;
    let rhs = parse_prefix(p, source, levels)?;
    Ok(p.push_let(docs, name, rhs))
}

// fn = "fn" ident "(" (ident ":" type)* ")" type? "{" prefix* "}"
#[cycle(grammar)]
fn parse_fn(p: &mut Parser, source: &Source, levels: usize) -> Result<NodeId, Diagnostic>
    requires { 1 < p.old.cur.kind }
    ensures { let rules = deeper (rules_of source.now.script.now) levels in
        ReadsNode source.now.tokens.now (parse_fn rules) p.old p.new result }
{
    let docs = p.take_docs();
    p.advance(source.tokens);
    let name = p.cur;
    p.expect_ident(source.tokens)?;
    let args = parse_args(p, source.tokens, levels)?;
    let return_type = fn_return(p, source.tokens, levels)?;
    let body = parse_body(p, source, levels)?;
    Ok(p.push_fn(docs, name, args, return_type, body))
}

// body = "{" prefix* "}"
#[cycle(grammar)]
fn parse_body(p: &mut Parser, source: &Source, levels: usize) -> Result<Run, Diagnostic>
    ensures { let rules = deeper (rules_of source.now.script.now) levels in
        ReadsList source.now.tokens.now (parse_body rules) p.old p.new result }
{
    p.expect(source.tokens, Type::CURLY_LEFT)?;
    items(p, source, Type::CURLY_RIGHT, levels)
}

// prefix*, up to a closing token: a body, or the arguments of a call. What `inits` and `elems`
// share with it is `list_until`; each closure has the clauses of its rule.
#[cycle(grammar)]
fn items(p: &mut Parser, source: &Source, stop: u32, levels: usize) -> Result<Run, Diagnostic>
    requires { 1 < stop }
    ensures { let rules = deeper (rules_of source.now.script.now) levels in
        ReadsList source.now.tokens.now (list_until stop (node_member rules.prefix))
        p.old p.new result }
{
    p.list_until(
        source.tokens,
        stop,
        |p: &mut Parser| -> Result<(), Diagnostic>
            ensures { let rules = deeper (rules_of source.entry.now.script.now) levels in
                ReadsMember source.entry.now.tokens.now (node_member rules.prefix)
                (code_of p.old) (code_after p.new result) }
        {
            let n = member(p, source, levels)?;
            p.push_cell(n.0);
            Ok(())
        },
    )
}

// match = "match" "{" (expr "{" prefix* "}")* "{" prefix* "}" "}"
#[cycle(grammar)]
fn parse_match(p: &mut Parser, source: &Source, levels: usize) -> Result<NodeId, Diagnostic>
    requires { 1 < p.old.cur.kind }
    ensures { let rules = deeper (rules_of source.now.script.now) levels in
        ReadsNode source.now.tokens.now (parse_match rules) p.old p.new result }
{
    p.advance(source.tokens);
    let i = p.at;
    p.expect(source.tokens, Type::CURLY_LEFT)?;
    cases(p, source, i, levels)
}

// What follows the `{` of a match, whose record is `at`.
#[cycle(grammar)]
fn cases(p: &mut Parser, source: &Source, at: u32, levels: usize) -> Result<NodeId, Diagnostic>
    ensures { let rules = deeper (rules_of source.now.script.now) levels in
        ReadsNode source.now.tokens.now (match_rest rules (token_at source.now.tokens.now at))
        p.old p.new result }
{
    let mark = p.used.scratch;
    // not by `members_until`: a default is no member, and is carried from block to block
    let mut so_far = CasesRead::default();
    while p.member_follows(Type::CURLY_RIGHT) {
        so_far = next_case(p, source, so_far, levels)?;
    }
    let run = p.close(source.tokens, Type::CURLY_RIGHT, mark, so_far.members)?;
    match_node(p, source.tokens, at, run, so_far.default)
}

// The next block of a match.
#[cycle(grammar)]
fn next_case(
    p: &mut Parser,
    source: &Source,
    so_far: CasesRead,
    levels: usize,
) -> Result<CasesRead, Diagnostic>
    requires { member_follows (reading p.old) k_curly_right ≡ true }
    ensures { let rules = deeper (rules_of source.now.script.now) levels in
        let tokens = source.now.tokens.now in
        let before = code_of p.old in
        Again tokens (next_case rules) cases_grown
        (CasesAre tokens so_far.default so_far.members before)
        (CasesGiven tokens result (code_of p.new)) before (code_after p.new result) }
{
    if p.kind() == Type::CURLY_LEFT {
        let token = p.cur;
        let run = parse_body(p, source, levels)?;
        return Ok(CasesRead {
            default: Some(DefaultBlock { token, run }),
            ..so_far
        });
    }
    condition(p, source, levels)?;
    Ok(CasesRead {
        members: so_far.members.wrapping_add(1),
        ..so_far
    })
}

// A case = expr "{" prefix* "}"
#[cycle(grammar)]
fn condition(p: &mut Parser, source: &Source, levels: usize) -> Result<(), Diagnostic>
    ensures { let rules = deeper (rules_of source.now.script.now) levels in
        ReadsMember source.now.tokens.now (case_cells rules) (code_of p.old)
        (code_after p.new result) }
{
    let t = p.cur;
    let n = parse_expr(p, source, 0, levels)?;
    let run = parse_body(p, source, levels)?;
    push_case(p, t, n, run);
    Ok(())
}

// ---- expressions

// expr =
//     atom |
//     ident |
//     "(" expr ")" |
//     prefix-op expr |
//     expr postfix-op |
//     expr infix-op expr |
//     { ident ":" expr } |
//     "[" expr "]"
#[cycle(grammar)]
fn parse_expr(
    p: &mut Parser,
    source: &Source,
    least: u32,
    levels: usize,
) -> Result<NodeId, Diagnostic>
    ensures { let rules = deeper (rules_of source.now.script.now) levels in
        ReadsNode source.now.tokens.now (rules.expr least) p.old p.new result }
{
    if levels == 0 {
        return Err(p.fail_expecting(Diagnostic::TOO_DEEP, 0));
    }
    let x = operand(p, source, levels - 1)?;
    let y = postfix(p, source, x, levels - 1)?;
    infixes(p, source, y, least, levels - 1)
}

// What an expr begins with: all but `expr postfix-op` and `expr infix-op expr`.
#[cycle(grammar)]
fn operand(p: &mut Parser, source: &Source, levels: usize) -> Result<NodeId, Diagnostic>
    ensures { let rules = deeper (rules_of source.now.script.now) levels in
        ReadsNode source.now.tokens.now (operand rules) p.old p.new result }
{
    match operand_class(p.kind()) {
        Some(Operand::Record) => record_literal(p, source, levels),
        Some(Operand::Array) => array_literal(p, source, levels),
        Some(Operand::Atom) => Ok(atom(p, source.tokens)),
        Some(Operand::Name) => Ok(ident(p, source.tokens)),
        Some(Operand::Group) => group(p, source, levels),
        Some(Operand::Sign) => unary(p, source, levels),
        None => Err(p.fail_expecting(Diagnostic::EXPECTED_EXPRESSION, 0)),
    }
}

// An expr = { ident ":" expr }. Beside `array_literal`: four lines each, each named by its rule.
#[cycle(grammar)]
fn record_literal(p: &mut Parser, source: &Source, levels: usize) -> Result<NodeId, Diagnostic>
    requires { 1 < p.old.cur.kind }
    ensures { let rules = deeper (rules_of source.now.script.now) levels in
        ReadsNode source.now.tokens.now (record_literal rules) p.old p.new result }
{
    let src = p.cur;
    p.advance(source.tokens);
    let fields = inits(p, source, levels)?;
    Ok(p.push_token_node(NodeKind::RECORD, src, fields.start, fields.len))
}

// The fields of a record, up to `}`.
#[cycle(grammar)]
fn inits(p: &mut Parser, source: &Source, levels: usize) -> Result<Run, Diagnostic>
    ensures { let rules = deeper (rules_of source.now.script.now) levels in
        ReadsList source.now.tokens.now (list_until k_curly_right (field rules)) p.old p.new
        result }
{
    p.list_until(
        source.tokens,
        Type::CURLY_RIGHT,
        |p: &mut Parser| -> Result<(), Diagnostic>
            ensures { let rules = deeper (rules_of source.entry.now.script.now) levels in
                ReadsMember source.entry.now.tokens.now (field rules)
                (code_of p.old) (code_after p.new result) }
        { field(p, source, levels) },
    )
}

// <key>: <value>
#[cycle(grammar)]
fn field(p: &mut Parser, source: &Source, levels: usize) -> Result<(), Diagnostic>
    ensures { let rules = deeper (rules_of source.now.script.now) levels in
        ReadsMember source.now.tokens.now (field rules) (code_of p.old)
        (code_after p.new result) }
{
    let key = p.cur;
    p.expect_ident(source.tokens)?;
    p.expect(source.tokens, Type::COLON)?;
    let id = parse_expr(p, source, 0, levels)?;
    p.push_named(key, id.0);
    Ok(())
}

// An expr = "[" expr "]"
#[cycle(grammar)]
fn array_literal(p: &mut Parser, source: &Source, levels: usize) -> Result<NodeId, Diagnostic>
    requires { 1 < p.old.cur.kind }
    ensures { let rules = deeper (rules_of source.now.script.now) levels in
        ReadsNode source.now.tokens.now (array_literal rules) p.old p.new result }
{
    let src = p.cur;
    p.advance(source.tokens);
    let members = elems(p, source, levels)?;
    Ok(p.push_token_node(NodeKind::ARRAY, src, members.start, members.len))
}

// The members of an array, up to `]`.
#[cycle(grammar)]
fn elems(p: &mut Parser, source: &Source, levels: usize) -> Result<Run, Diagnostic>
    ensures { let rules = deeper (rules_of source.now.script.now) levels in
        ReadsList source.now.tokens.now (list_until k_braket_right (node_member (rules.expr 0)))
        p.old p.new result }
{
    p.list_until(
        source.tokens,
        Type::BRAKET_RIGHT,
        |p: &mut Parser| -> Result<(), Diagnostic>
            ensures { let rules = deeper (rules_of source.entry.now.script.now) levels in
                ReadsMember source.entry.now.tokens.now (node_member (rules.expr 0))
                (code_of p.old) (code_after p.new result) }
        {
            let n = parse_expr(p, source, 0, levels)?;
            p.push_cell(n.0);
            Ok(())
        },
    )
}

// An expr = "(" expr ")"
#[cycle(grammar)]
fn group(p: &mut Parser, source: &Source, levels: usize) -> Result<NodeId, Diagnostic>
    requires { 1 < p.old.cur.kind }
    ensures { let rules = deeper (rules_of source.now.script.now) levels in
        ReadsNode source.now.tokens.now (group rules) p.old p.new result }
{
    p.advance(source.tokens);
    let id = parse_expr(p, source, 0, levels)?;
    p.expect(source.tokens, Type::BRACE_RIGHT)?;
    Ok(id)
}

// An expr = prefix-op expr
#[cycle(grammar)]
fn unary(p: &mut Parser, source: &Source, levels: usize) -> Result<NodeId, Diagnostic>
    requires { 1 < p.old.cur.kind }
    ensures { let rules = deeper (rules_of source.now.script.now) levels in
        ReadsNode source.now.tokens.now (unary rules) p.old p.new result }
{
    let op = p.cur;
    p.advance(source.tokens);
    let rhs = parse_expr(p, source, PREFIX_POWER, levels)?;
    Ok(p.push_token_node(NodeKind::UNARY, op, rhs.0, 0))
}

// Postfix parsing loop: expr = expr postfix-op
#[cycle(grammar)]
fn postfix(
    p: &mut Parser,
    source: &Source,
    lhs: NodeId,
    levels: usize,
) -> Result<NodeId, Diagnostic>
    ensures { let rules = deeper (rules_of source.now.script.now) levels in
        LoopsNode source.now.tokens.now (postfix rules lhs) p.old p.new result }
{
    let mut x = lhs;
    while postfix_follows(p, x) {
        x = postfix_step(p, source, x, levels)?;
    }
    Ok(x)
}

// One more field or call.
#[cycle(grammar)]
fn postfix_step(
    p: &mut Parser,
    source: &Source,
    lhs: NodeId,
    levels: usize,
) -> Result<NodeId, Diagnostic>
    requires { postfix_follows p.old.nodes.now (reading p.old) lhs ≡ true }
    ensures { let rules = deeper (rules_of source.now.script.now) levels in
        ReadsStep source.now.tokens.now (postfix_step rules lhs) p.old p.new result }
{
    if p.kind() == Type::DOT {
        field_access(p, source.tokens, lhs)
    } else {
        call(p, source, lhs, levels)
    }
}

// An expr = expr "(" prefix* ")"
#[cycle(grammar)]
fn call(p: &mut Parser, source: &Source, lhs: NodeId, levels: usize) -> Result<NodeId, Diagnostic>
    requires { 1 < p.old.cur.kind }
    ensures { let rules = deeper (rules_of source.now.script.now) levels in
        ReadsStep source.now.tokens.now (call rules lhs) p.old p.new result }
{
    p.advance(source.tokens);
    let args = items(p, source, Type::BRACE_RIGHT, levels)?;
    Ok(p.push_call(lhs, args))
}

// Infix parsing loop: expr = expr infix-op expr
#[cycle(grammar)]
fn infixes(
    p: &mut Parser,
    source: &Source,
    lhs: NodeId,
    least: u32,
    levels: usize,
) -> Result<NodeId, Diagnostic>
    ensures { let rules = deeper (rules_of source.now.script.now) levels in
        LoopsNode source.now.tokens.now (infixes rules stage_one source.now.script.now least
        lhs) p.old p.new result }
{
    let mut x = lhs;
    while infix_follows(p, source.script, least) {
        x = infix_step(p, source, x, least, levels)?;
    }
    Ok(x)
}

// One more sign with its right side; or one more cast, whose `as` is the one infix without a power.
#[cycle(grammar)]
fn infix_step(
    p: &mut Parser,
    source: &Source,
    lhs: NodeId,
    least: u32,
    levels: usize,
) -> Result<NodeId, Diagnostic>
    requires { infix_follows source.now.script.now (reading p.old) least ≡ true }
    ensures { let rules = deeper (rules_of source.now.script.now) levels in
        ReadsStep source.now.tokens.now (infix_step rules stage_one source.now.script.now least
        lhs) p.old p.new result }
{
    match infix_power(p.kind()) {
        Some(left) => binary(p, source, lhs, left, levels),
        None => cast(p, source.tokens, lhs, levels),
    }
}

// An expr = expr infix-op expr, `left` being the power on the left of the sign. The power on its
// right is one more.
#[cycle(grammar)]
fn binary(
    p: &mut Parser,
    source: &Source,
    lhs: NodeId,
    left: u32,
    levels: usize,
) -> Result<NodeId, Diagnostic>
    requires { (1 < p.old.cur.kind) × (left < prefix_power) }
    ensures { let rules = deeper (rules_of source.now.script.now) levels in
        ReadsStep source.now.tokens.now (binary rules lhs left) p.old p.new result }
{
    let op = p.cur;
    p.advance(source.tokens);
    let rhs = parse_expr(p, source, left + 1, levels)?;
    Ok(p.push_token_node(NodeKind::BIN, op, lhs.0, rhs.0))
}
