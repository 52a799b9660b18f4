// Members and a list by a closure of which a caller knows that the arrays stay those that were
// lent, and nothing of how long they are.
ghost use Rattle.std.specs.Prelude.{ℕ, ◌<◌, ◌≤◌, List, IfOk};
ghost use Rattle.lex.specs.Answer.{max_bytes};
ghost use Rattle.rules.specs.Combinators.{Rule, list_until};
ghost use Rattle.rules.specs.Rules.{import_path};
ghost use Rattle.parser_state.specs.Represents.{AsNamed, code_of, code_after};
ghost use Rattle.parser_state.specs.Keeps.{KeepsNodes, KeepsTypes};
ghost use Rattle.parser_state.specs.Refines.{RefinesBy, ReadsMemberBy, stack_unchanged, all_grown};
ghost use Rattle.parser_state.specs.Refines.{Gives, GivesCount};
ghost use Rattle.parser_state.specs.Members.{members_until, ReadsEach, KeepsEach};

use super::*;
use std::test::Fail;
use tokens::{ERROR_WIDTH, TOKEN_WIDTH, cut};

// How many members are read.
fn count_of<F: Fn(&mut Parser) -> Result<(), Diagnostic>>(
    p: &mut Parser,
    tokens: &[u32],
    stop: u32,
    member: F,
) -> Result<u32, Diagnostic>
    requires stop { 1 < stop }
    requires callable { F.IsAlwaysCallable member }
    requires reads { (item : Rule (List ℕ)) × ReadsEach tokens.now item (F.post member) }
    ensures reads { (item : Rule (List ℕ)) → ReadsEach tokens.now item (F.post member)
        → RefinesBy AsNamed tokens.now 0 0 (members_until stop item)
        (GivesCount tokens.now (code_of p.new) result) all_grown 1 1 8 (code_of p.old)
        (code_after p.new result) }
    ensures nodes { KeepsEach KeepsNodes (F.post member) → KeepsNodes p.old p.new }
    ensures types { KeepsEach KeepsTypes (F.post member) → KeepsTypes p.old p.new }
{
    p.members_until(tokens, stop, member)
}

// Their list.
fn list_of<F: Fn(&mut Parser) -> Result<(), Diagnostic>>(
    p: &mut Parser,
    tokens: &[u32],
    stop: u32,
    member: F,
) -> Result<Run, Diagnostic>
    requires stop { 1 < stop }
    requires callable { F.IsAlwaysCallable member }
    requires reads { (item : Rule (List ℕ)) × ReadsEach tokens.now item (F.post member) }
    ensures reads { (item : Rule (List ℕ)) → ReadsEach tokens.now item (F.post member)
        → RefinesBy AsNamed tokens.now 0 0 (list_until stop item) (Gives result) stack_unchanged
        1 1 8 (code_of p.old) (code_after p.new result) }
    ensures short { IfOk result (λ run. run.len ≤ max_bytes) }
    ensures nodes { KeepsEach KeepsNodes (F.post member) → KeepsNodes p.old p.new }
    ensures types { KeepsEach KeepsTypes (F.post member) → KeepsTypes p.old p.new }
{
    p.list_until(tokens, stop, member)
}

// A string, whose cells are pushed.
fn string(p: &mut Parser, tokens: &[u32]) -> Result<(), Diagnostic>
    ensures { ReadsMemberBy AsNamed tokens.now import_path (code_of p.old)
        (code_after p.new result) }
{
    let t = p.cur;
    p.expect_or(tokens, Type::S, Diagnostic::IMPORT_PATH_NOT_A_STRING, 0)?;
    p.push_token(t);
    Ok(())
}

// A list of strings up to `)`.
fn strings(p: &mut Parser, tokens: &[u32]) -> Result<Run, Diagnostic> {
    list_of(
        p,
        tokens,
        Type::BRACE_RIGHT,
        |p: &mut Parser|
            ensures { ReadsMemberBy AsNamed tokens.entry.now import_path (code_of p.old)
                (code_after p.new result) }
        { string(p, tokens) },
    )
}

// How many there are.
fn strings_counted(p: &mut Parser, tokens: &[u32]) -> Result<u32, Diagnostic> {
    count_of(
        p,
        tokens,
        Type::BRACE_RIGHT,
        |p: &mut Parser|
            ensures { ReadsMemberBy AsNamed tokens.entry.now import_path (code_of p.old)
                (code_after p.new result) }
        { string(p, tokens) },
    )
}

fn check(holds: bool, what: &'static str) -> Result<(), &'static str> {
    if holds { Ok(()) } else { Err(what) }
}

#[test]
fn lists_where_nothing_is_said_of_lengths() -> Result<(), Fail> {
    let script = b"\"a\" \"bc\" ) \"d\" ) \"e\" 1 )";
    let mut tokens = [0; TOKEN_WIDTH * 32];
    let mut errors = [0; ERROR_WIDTH * 32];
    check(cut(script, &mut tokens, &mut errors).is_ok(), "cut")?;
    let mut nodes = [0; 1];
    let mut types = [0; 1];
    let mut lists = [0; 32];
    let State { cur, at, used } = State::begin(&tokens);
    let mut p = Parser {
        nodes: &mut nodes,
        types: &mut types,
        lists: &mut lists,
        cur,
        at,
        used,
    };
    let list = strings(&mut p, &tokens);
    check(
        list.is_ok_and(|run| (run.start, run.len) == (0, 2)),
        "a list",
    )?;
    let count = strings_counted(&mut p, &tokens);
    check(count.is_ok_and(|n| n == 1), "a count")?;
    let wrong = (Diagnostic::IMPORT_PATH_NOT_A_STRING, 21);
    let list = strings(&mut p, &tokens);
    check(
        list.is_err_and(|e| (e.number, e.start) == wrong),
        "an error",
    )?;
    let cells = [Type::S, 0, 1, Type::S, 4, 2];
    check(&lists[..6] == cells.as_slice(), "the cells of the list")?;
    Ok(())
}
