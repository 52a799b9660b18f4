// The readers of parser.rs that read no item and no expression: types, arguments, imports and
// externs.
#![tactic(auto)]

ghost use Rattle.std.specs.Prelude.{◌≡◌, ℕ, ◌<◌, ◌≤◌, List, [], ◌∷◌, ◌++◌, Ok, IfOk};
ghost use Rattle.lex.specs.Answer.{max_bytes};
ghost use Rattle.lex.specs.Kind.{k_curly_right};
ghost use Rattle.tokens.specs.Table.{token_of};
ghost use Rattle.rules.specs.Combinators.{list_until};
ghost use Rattle.ast.specs.Layout.{token_cells, run_cells, type_cells, type_width, padded};
ghost use Rattle.ast.specs.declared.TypeExpr.{TypeExpr};
ghost use Rattle.ast.specs.declared.TypeExprId.{TypeExprId};
ghost use Rattle.rules.specs.Rules.{open_angle, atom_type, foreign_type, record_type, typed_name};
ghost use Rattle.rules.specs.Rules.{supplied_void, fn_return, extern_return, parse_args};
ghost use Rattle.rules.specs.Rules.{import_path, bracketed_paths, one_path, import_paths};
ghost use Rattle.rules.specs.Rules.{parse_import, extern_fn, parse_extern};
ghost use Rattle.parser_state.specs.Represents.{code_of, code_after};
ghost use Rattle.parser_state.specs.Keeps.{KeepsAll, KeepsNodes, KeepsTypes};
ghost use Rattle.parser_state.specs.Keeps.{KeepsNodesLists, KeepsNodesTypes};
ghost use Rattle.parser_state.specs.Refines.{Refines, stack_unchanged, all_grown, Gives};
ghost use Rattle.parser_state.specs.Refines.{GivesCount, ReadsType};
ghost use Rattle.parser_state.specs.Refines.{ReadsNode, ReadsList, ReadsMember, Pushes};
ghost use Rattle.parser_state.specs.Refines.{Rules, deeper};
ghost use Rattle.parser_state.specs.Wherever.{AnyArrays, AnyNodesLists, AnyNodesTypes};
ghost use Rattle.parser_state.specs.Wherever.{AnyNodes, AnyTypes};
ghost use Rattle.parser_types.specs.Inner.{inner_type};
ghost use Rattle.parser_types.specs.Paths.{ReadsPaths};

use ast::{NodeId, NodeKind, Run, TypeExprId, TypeExprKind};
use lex::{Diagnostic, Type};
use parser_state::Parser;
use tokens::Entry;

// ---- types

// The word and the `<` of a type, `number` being the error where `>` follows.
fn open_angle(p: &mut Parser, tokens: &[u32], number: u32) -> Result<(), Diagnostic>
    requires { 1 < p.old.cur.kind }
    ensures reads { Refines tokens.now 0 0 (open_angle number) (λ n. n ≡ 0) stack_unchanged 2 2 16
        (code_of p.old) (code_after p.new result) }
    ensures wherever { AnyArrays (Refines tokens.now 0 0 (open_angle number) (λ n. n ≡ 0)
        stack_unchanged 2 2 16) (code_of p.old) (code_after p.new result) }
    ensures keeps { KeepsAll p.old p.new }
{
    p.advance(tokens);
    p.expect(tokens, Type::LESS_THAN)?;
    p.reject_kind(Type::GREATER_THAN, number)
}

// A type = atom-type
fn atom_type(p: &mut Parser, tokens: &[u32]) -> TypeExprId
    requires { 1 < p.old.cur.kind }
    ensures reads { ReadsType tokens.now atom_type p.old p.new (Ok result) }
    ensures wherever { AnyNodesLists (Refines tokens.now 0 0 atom_type (Gives (Ok result))
        stack_unchanged 1 0 8) (code_of p.old) (code_of p.new) }
    ensures keeps { KeepsNodesLists p.old p.new }
{
    let t = p.cur;
    p.advance(tokens);
    p.push_type(TypeExprKind::ATOM, [t.kind, t.start, t.len])
}

// A type = "Foreign" "<" ident ">"
fn foreign_type(p: &mut Parser, tokens: &[u32]) -> Result<TypeExprId, Diagnostic>
    requires { 1 < p.old.cur.kind }
    ensures reads { ReadsType tokens.now foreign_type p.old p.new result }
    ensures wherever { AnyNodesLists (Refines tokens.now 0 0 foreign_type (Gives result)
        stack_unchanged 1 0 8) (code_of p.old) (code_after p.new result) }
    ensures keeps { KeepsNodesLists p.old p.new }
{
    open_angle(p, tokens, Diagnostic::EMPTY_FOREIGN)?;
    let name = p.cur;
    p.expect_ident(tokens)?;
    p.expect(tokens, Type::GREATER_THAN)?;
    Ok(p.push_type(TypeExprKind::FOREIGN, [name.kind, name.start, name.len]))
}

// A type with one inside = word "<" type ">", `number` being the error where there is none.
#[cycle(types)]
fn inner_type(
    p: &mut Parser,
    tokens: &[u32],
    kind: u32,
    number: u32,
    levels: usize,
) -> Result<TypeExprId, Diagnostic>
    requires { 1 < p.old.cur.kind }
    ensures reads { (rules : Rules) (make : TypeExprId → TypeExpr) →
        ((id : TypeExprId) → type_cells (make id) ≡ padded type_width (kind ∷ id.0 ∷ []))
        → ReadsType tokens.now (inner_type number make (deeper rules levels)) p.old p.new result }
    ensures wherever { (rules : Rules) (make : TypeExprId → TypeExpr) →
        ((id : TypeExprId) → type_cells (make id) ≡ padded type_width (kind ∷ id.0 ∷ []))
        → AnyNodes (Refines tokens.now 0 0 (inner_type number make (deeper rules levels))
        (Gives result) stack_unchanged 1 0 8) (code_of p.old) (code_after p.new result) }
    ensures keeps { KeepsNodes p.old p.new }
{
    open_angle(p, tokens, number)?;
    let id = parse_type(p, tokens, levels)?;
    p.expect(tokens, Type::GREATER_THAN)?;
    Ok(p.push_type(kind, [id.0]))
}

// A name and its type = ident ":" type
#[cycle(types)]
fn typed_name(p: &mut Parser, tokens: &[u32], levels: usize) -> Result<(), Diagnostic>
    ensures reads { (rules : Rules) →
        ReadsMember tokens.now (typed_name (deeper rules levels))
        (code_of p.old) (code_after p.new result) }
    ensures wherever { (rules : Rules) →
        AnyNodes (ReadsMember tokens.now (typed_name (deeper rules levels)))
        (code_of p.old) (code_after p.new result) }
    ensures keeps { KeepsNodes p.old p.new }
{
    let name = p.cur;
    p.expect_ident(tokens)?;
    p.expect(tokens, Type::COLON)?;
    let id = parse_type(p, tokens, levels)?;
    p.push_named(name, id.0);
    Ok(())
}

// (ident ":" type)*, up to a closing token. A closure in a cycle of calls needs clauses of its own.
#[cycle(types)]
fn typed_names(p: &mut Parser, tokens: &[u32], stop: u32, levels: usize) -> Result<Run, Diagnostic>
    requires { 1 < stop }
    ensures reads { (rules : Rules) →
        ReadsList tokens.now (list_until stop (typed_name (deeper rules levels))) p.old p.new
        result }
    ensures wherever { (rules : Rules) →
        AnyNodes (Refines tokens.now 0 0 (list_until stop (typed_name (deeper rules levels)))
        (Gives result) stack_unchanged 1 1 8) (code_of p.old) (code_after p.new result) }
    ensures short { IfOk result (λ run. run.len ≤ max_bytes) }
    ensures keeps { KeepsNodes p.old p.new }
{
    p.list_until(
        tokens,
        stop,
        |p: &mut Parser|
            ensures wherever { (rules : Rules) →
                AnyNodes (ReadsMember tokens.entry.now (typed_name (deeper rules levels)))
                (code_of p.old) (code_after p.new result) }
            ensures keeps { KeepsNodes p.old p.new }
        { typed_name(p, tokens, levels) },
    )
}

// A type = "Record" "<" (ident ":" type)* ">"
#[cycle(types)]
fn record_type(p: &mut Parser, tokens: &[u32], levels: usize) -> Result<TypeExprId, Diagnostic>
    requires { 1 < p.old.cur.kind }
    ensures reads { (rules : Rules) →
        ReadsType tokens.now (record_type (deeper rules levels)) p.old p.new result }
    ensures wherever { (rules : Rules) →
        AnyNodes (Refines tokens.now 0 0 (record_type (deeper rules levels)) (Gives result)
        stack_unchanged 1 0 8) (code_of p.old) (code_after p.new result) }
    ensures keeps { KeepsNodes p.old p.new }
{
    let src = p.cur;
    p.advance(tokens);
    p.expect(tokens, Type::LESS_THAN)?;
    let run = typed_names(p, tokens, Type::GREATER_THAN, levels)?;
    let fields = [src.kind, src.start, src.len, run.start, run.len];
    Ok(p.push_type(TypeExprKind::RECORD, fields))
}

// type = atom-type | "Foreign" "<" ident ">" | "Option" "<" type ">" | "Array" "<" type ">" |
// "Record" "<" (ident ":" type)* ">"
#[cycle(types)]
pub fn parse_type(p: &mut Parser, tokens: &[u32], levels: usize) -> Result<TypeExprId, Diagnostic>
    ensures reads { (rules : Rules) →
        ReadsType tokens.now (deeper rules levels).type p.old p.new result }
    ensures wherever { (rules : Rules) →
        AnyNodes (Refines tokens.now 0 0 (deeper rules levels).type (Gives result)
        stack_unchanged 1 0 8) (code_of p.old) (code_after p.new result) }
    ensures keeps { KeepsNodes p.old p.new }
{
    if levels == 0 {
        return Err(p.fail_expecting(Diagnostic::TOO_DEEP, 0));
    }
    let below = levels - 1;
    match p.kind() {
        Type::STR | Type::INT | Type::DOUBLE | Type::BOOL | Type::VOID => Ok(atom_type(p, tokens)),
        Type::FOREIGN => foreign_type(p, tokens),
        Type::OPTION => {
            let number = Diagnostic::EMPTY_OPTION;
            inner_type(p, tokens, TypeExprKind::OPTION, number, below)
        }
        Type::ARRAY => {
            let number = Diagnostic::EMPTY_ARRAY;
            inner_type(p, tokens, TypeExprKind::ARRAY, number, below)
        }
        Type::RECORD => record_type(p, tokens, below),
        _ => { Err(p.fail_expecting(Diagnostic::BAD_TYPE, 0)) }
    }
}

// ---- arguments and return types

// A Void that the script leaves out, at the next token.
fn supplied_void(p: &mut Parser) -> TypeExprId
    ensures reads { (tokens : List ℕ) →
        Refines tokens 1 0 supplied_void (λ t. t ≡ result) stack_unchanged 0 0 0
        (code_of p.old) (code_of p.new) }
    ensures wherever { (tokens : List ℕ) →
        AnyNodesLists (Refines tokens 1 0 supplied_void (λ t. t ≡ result) stack_unchanged 0 0 0)
        (code_of p.old) (code_of p.new) }
    ensures keeps { KeepsNodesLists p.old p.new }
{
    let at = p.cur.start;
    p.push_type(TypeExprKind::ATOM, [Type::VOID, at, 4])
}

// The return type of a fn, Void where a `{` follows.
pub fn fn_return(p: &mut Parser, tokens: &[u32], levels: usize) -> Result<TypeExprId, Diagnostic>
    ensures reads { (rules : Rules) →
        Refines tokens.now 1 0 (fn_return (deeper rules levels)) (Gives result) stack_unchanged
        0 0 0 (code_of p.old) (code_after p.new result) }
    ensures wherever { (rules : Rules) →
        AnyNodes (Refines tokens.now 1 0 (fn_return (deeper rules levels)) (Gives result)
        stack_unchanged 0 0 0) (code_of p.old) (code_after p.new result) }
    ensures keeps { KeepsNodes p.old p.new }
{
    if p.kind() == Type::CURLY_LEFT {
        Ok(supplied_void(p))
    } else {
        parse_type(p, tokens, levels)
    }
}

// The return type in an extern, Void where a `}` or a `fn` follows. Apart from `fn_return`, where
// another token follows: one function of both would take an array of kinds for two tests.
fn extern_return(p: &mut Parser, tokens: &[u32], levels: usize) -> Result<TypeExprId, Diagnostic>
    ensures reads { (rules : Rules) →
        Refines tokens.now 1 0 (extern_return (deeper rules levels)) (Gives result)
        stack_unchanged 0 0 0 (code_of p.old) (code_after p.new result) }
    ensures keeps { KeepsNodes p.old p.new }
{
    match p.kind() {
        Type::CURLY_RIGHT | Type::FN => Ok(supplied_void(p)),
        _ => parse_type(p, tokens, levels),
    }
}

// args = "(" (ident ":" type)* ")"
pub fn parse_args(p: &mut Parser, tokens: &[u32], levels: usize) -> Result<Run, Diagnostic>
    ensures reads { (rules : Rules) →
        ReadsList tokens.now (parse_args (deeper rules levels)) p.old p.new result }
    ensures wherever { (rules : Rules) →
        AnyNodes (Refines tokens.now 0 0 (parse_args (deeper rules levels)) (Gives result)
        stack_unchanged 1 1 8) (code_of p.old) (code_after p.new result) }
    ensures short { IfOk result (λ run. run.len ≤ max_bytes) }
    ensures keeps { KeepsNodes p.old p.new }
{
    p.expect(tokens, Type::BRACE_LEFT)?;
    typed_names(p, tokens, Type::BRACE_RIGHT, levels)
}

// ---- imports

// A path of an import.
fn import_path(p: &mut Parser, tokens: &[u32]) -> Result<(), Diagnostic>
    ensures reads { ReadsMember tokens.now import_path (code_of p.old) (code_after p.new result) }
    ensures wherever { AnyNodesTypes (ReadsMember tokens.now import_path) (code_of p.old)
        (code_after p.new result) }
    ensures keeps { KeepsNodesTypes p.old p.new }
{
    let t = p.cur;
    p.expect_or(tokens, Type::S, Diagnostic::IMPORT_PATH_NOT_A_STRING, 0)?;
    p.push_token(t);
    Ok(())
}

// Multiple package import: import ("io" "runtime"). The closure's clauses say that it reads
// whatever the nodes and types hold.
fn bracketed_paths(p: &mut Parser, tokens: &[u32]) -> Result<u32, Diagnostic>
    ensures reads { ReadsPaths tokens.now bracketed_paths p.old p.new result }
    ensures wherever { AnyNodesTypes (Refines tokens.now 0 0 bracketed_paths
        (GivesCount tokens.now (code_of p.new) result) all_grown 1 1 2) (code_of p.old)
        (code_after p.new result) }
    ensures keeps { KeepsNodesTypes p.old p.new }
{
    p.expect(tokens, Type::BRACE_LEFT)?;
    p.members_until(
        tokens,
        Type::BRACE_RIGHT,
        |p: &mut Parser|
            ensures wherever { AnyNodesTypes (ReadsMember tokens.entry.now import_path)
                (code_of p.old) (code_after p.new result) }
            ensures keeps { KeepsNodesTypes p.old p.new }
        { import_path(p, tokens) },
    )
}

// Single package import: import "io". Apart from `import_path`, which promises no room behind: what
// is left of the string's room pays for the record of the import.
fn one_path(p: &mut Parser, tokens: &[u32]) -> u32
    requires { 1 < p.old.cur.kind }
    ensures reads { ReadsPaths tokens.now one_path p.old p.new (Ok result) }
    ensures wherever { AnyNodesTypes (Refines tokens.now 0 0 one_path
        (GivesCount tokens.now (code_of p.new) (Ok result)) all_grown 1 1 2) (code_of p.old)
        (code_of p.new) }
    ensures keeps { KeepsNodesTypes p.old p.new }
{
    let t = p.cur;
    p.advance(tokens);
    p.push_token(t);
    1
}

// The paths of an import, in brackets or not.
fn import_paths(p: &mut Parser, tokens: &[u32]) -> Result<u32, Diagnostic>
    ensures reads { ReadsPaths tokens.now import_paths p.old p.new result }
    ensures wherever { AnyNodesTypes (Refines tokens.now 0 0 import_paths
        (GivesCount tokens.now (code_of p.new) result) all_grown 1 1 2) (code_of p.old)
        (code_after p.new result) }
    ensures keeps { KeepsNodesTypes p.old p.new }
{
    if p.kind() == Type::S {
        Ok(one_path(p, tokens))
    } else {
        bracketed_paths(p, tokens)
    }
}

// import = "import" string | "import" "(" string* ")"
pub fn parse_import(p: &mut Parser, tokens: &[u32]) -> Result<NodeId, Diagnostic>
    requires { 1 < p.old.cur.kind }
    ensures reads { ReadsNode tokens.now parse_import p.old p.new result }
    ensures wherever { AnyTypes (Refines tokens.now 0 0 parse_import (Gives result)
        stack_unchanged 1 0 8) (code_of p.old) (code_after p.new result) }
    ensures keeps { KeepsTypes p.old p.new }
{
    let src = p.cur;
    p.advance(tokens);
    let mark = p.used.scratch;
    let members = import_paths(p, tokens)?;
    let pkgs = p.alloc_slice(mark, members);
    Ok(p.push_token_node(NodeKind::IMPORT, src, pkgs.start, pkgs.len))
}

// ---- externs

// The cells of a fn of an extern.
#[tactic(auto, unfolding(ast::specs::Layout::token_cells, ast::specs::Layout::run_cells))]
fn push_extern_fn(p: &mut Parser, docs: Run, name: Entry, args: Run, id: TypeExprId)
    ensures reads { (tokens : List ℕ) →
        Pushes tokens 16 (run_cells docs ++ token_cells (token_of name) ++ run_cells args ++
        (id.0 ∷ [])) (code_of p.old) (code_of p.new) }
    ensures keeps { KeepsNodesTypes p.old p.new }
{
    p.push_cells(&[
        id.0, args.len, args.start, name.len, name.start, name.kind, docs.len, docs.start,
    ]);
}

// A fn of an extern = doc* "fn" ident args type?
fn extern_fn(p: &mut Parser, tokens: &[u32], levels: usize) -> Result<(), Diagnostic>
    ensures reads { (rules : Rules) →
        ReadsMember tokens.now (extern_fn (deeper rules levels)) (code_of p.old)
        (code_after p.new result) }
    ensures keeps { KeepsNodes p.old p.new }
{
    p.collect_docs(tokens);
    p.reject_kind(Type::EXTERN, Diagnostic::NESTED_EXTERN)?;
    let docs = p.take_docs();
    p.expect(tokens, Type::FN)?;
    let name = p.cur;
    p.expect_ident(tokens)?;
    let args = parse_args(p, tokens, levels)?;
    let id = extern_return(p, tokens, levels)?;
    push_extern_fn(p, docs, name, args, id);
    Ok(())
}

// (doc* "fn" ident args type?)* "}". The closure's clauses say that it reads by any rules.
fn extern_fns(p: &mut Parser, tokens: &[u32], levels: usize) -> Result<Run, Diagnostic>
    ensures reads { (rules : Rules) →
        ReadsList tokens.now (list_until k_curly_right (extern_fn (deeper rules levels))) p.old
        p.new result }
    ensures keeps { KeepsNodes p.old p.new }
{
    p.list_until(
        tokens,
        Type::CURLY_RIGHT,
        |p: &mut Parser|
            ensures reads { (rules : Rules) →
                ReadsMember tokens.entry.now (extern_fn (deeper rules levels))
                (code_of p.old) (code_after p.new result) }
            ensures keeps { KeepsNodes p.old p.new }
        { extern_fn(p, tokens, levels) },
    )
}

// extern = "extern" string "{" (doc* "fn" ident args type?)* "}"
pub fn parse_extern(p: &mut Parser, tokens: &[u32], levels: usize) -> Result<NodeId, Diagnostic>
    ensures { (rules : Rules) →
        ReadsNode tokens.now (parse_extern (deeper rules levels)) p.old p.new result }
{
    let docs = p.take_docs();
    let src = p.cur;
    p.expect(tokens, Type::EXTERN)?;
    let name = p.cur;
    p.expect_or(tokens, Type::S, Diagnostic::EXTERN_WITHOUT_A_STRING, 0)?;
    p.expect(tokens, Type::CURLY_LEFT)?;
    let fns = extern_fns(p, tokens, levels)?;
    Ok(p.push_extern(src, docs, name, fns))
}
