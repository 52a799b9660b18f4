// The entry points of parser.rs. The script and the arrays are parameters of their own: C and
// list_script lend each by itself.
#![tactic(auto)]

mod recovery;

ghost use Rattle.std.specs.Prelude.{◌≡◌, true, List, [], ℕ, ◌*◌, ◌≤◌, length};
ghost use Rattle.lex.specs.Cells.{padded};
ghost use Rattle.lex.specs.Kind.{k_eof};
ghost use Rattle.lex.specs.Lex.{cut, tokens_of};
ghost use Rattle.lex.specs.declared.diagnostic.Diagnostic.{Diagnostic};
ghost use Rattle.tokens.specs.Table.{tokens_from};
ghost use Rattle.tokens.specs.Tables.{error_table};
ghost use Rattle.rules.specs.Tree.{State};
ghost use Rattle.ast.specs.Layout.{diagnostic_width};
ghost use Rattle.ast.specs.Answer.{refusal_number};
ghost use Rattle.rules.specs.Rules.{stage_one};
ghost use Rattle.rules.specs.Parse.{Gathered, begin, parse_roots, parse, recover as recover_rule};
ghost use Rattle.rules.specs.Parse.{parse_roots_collect, parse_collect};
ghost use Rattle.rules.specs.Parsed.{parsed_of};
ghost use Rattle.rules.specs.Promise.{arrays_of, outcome};
ghost use Rattle.parser_state.specs.Represents.{reading, code_of, loan, Represents, FailedAt};
ghost use Rattle.parser_state.specs.Refines.{Refines, stack_unchanged, failed, member_follows};
ghost use Rattle.parser_state.specs.Keeps.{KeepsAll};
ghost use Rattle.parser.specs.Whole.{refusal, not_read, Begun, FirstToken, RootPushed};
ghost use Rattle.parser.specs.Whole.{RootsEnd, drop_docs};
ghost use Rattle.parser.specs.Collect.{collected, gathered, GatheredAre, Room, TurnEnds};
ghost use Rattle.parser.specs.Collect.{collect_step, CollectEnds, finished};
ghost use Rattle.parser.specs.Steps.{read_promised, parse_promised};

use crate::recovery::{resume, synchronize_root};
use ast::lent::CELLS_PER_BYTE;
use ast::{Counts, DIAGNOSTIC_WIDTH, Node, NodeId, Parsed, ReadError, TypeExpr};
use diagnostics::{Listed, push_diagnostic, push_faults};
use lex::{Diagnostic, Refusal, Type};
use parser_items::{Source, member};
use parser_state::Parser;
use tokens::{ERROR_WIDTH, TOKEN_WIDTH, clear_from, cut, is_cut};

// ---- arrays

// Refused where the script is too long, then where an array or a table has fewer cells than its
// bytes ask for. Beside `Tree::refusal` and that of `cut`: to ask both takes a tree with counts
// that nobody has made, and tests the script's length twice.
#[tactic(auto, unfolding(crate::specs::Whole::refusal, lex::specs::Bytes::or))]
fn refusal(
    script: &[u8],
    tokens: &[u32],
    errors: &[u32],
    nodes: &[u32],
    types: &[u32],
    lists: &[u32],
    roots: &[u32],
    diagnostics: &[u32],
) -> Result<(), Refusal>
    ensures { refusal_number result
        ≡ refusal (length script.now) (length nodes.now) (length types.now) (length lists.now)
        (length roots.now) (length diagnostics.now) (length tokens.now) (length errors.now) }
{
    let n = script.len();
    if Parser::MAX_BYTES < n {
        return Err(Refusal::TooLong);
    }
    if nodes.len() < Node::WIDTH * n
        || types.len() < TypeExpr::WIDTH * n
        || lists.len() < CELLS_PER_BYTE * n
        || roots.len() < n
        || diagnostics.len() < DIAGNOSTIC_WIDTH * n
        || tokens.len() < TOKEN_WIDTH * n + TOKEN_WIDTH
        || errors.len() < ERROR_WIDTH * n
    {
        return Err(Refusal::TooShort);
    }
    Ok(())
}

// ---- roots

// A root's number goes behind those that are there. Their count is not kept with the array: C lends
// that alone, and the count goes into the answer with others.
fn push_root(roots: &mut [u32], n: u32, id: NodeId) -> u32
    ensures { RootPushed roots.old n id.0 roots.new result }
{
    let at = n as usize;
    if at < roots.len() && at < Parser::MAX_BYTES {
        roots[at] = id.0;
        return n + 1;
    }
    n
}

// Pending docs are dropped.
fn drop_docs(p: &mut Parser)
    ensures reads { ((tokens : List ℕ) →
        Refines tokens 0 0 drop_docs (λ n. n ≡ 0) stack_unchanged 0 0 0 (code_of p.old)
        (code_of p.new))
        × (p.new.cur ≡ p.old.cur)
        × (p.new.at ≡ p.old.at) }
    ensures keeps { KeepsAll p.old p.new }
{
    p.used.docs = 0;
}

// How many roots there are, how many diagnostics, and how many of the lexer's errors are among
// them.
#[derive(Clone, Copy, Default)]
pub struct Gathering {
    pub members: u32,
    pub listed: Listed,
}

// program = prefix*. Beside `parse_roots_collect`: they share the test of the loop; here an error
// ends it by `?`.
fn parse_roots(p: &mut Parser, source: &Source, roots: &mut [u32]) -> Result<Gathering, Diagnostic>
    requires { let before = code_of p.old in
        Begun source.now.script.now source.now.tokens.now before.nodes before.types before.lists
        roots.old
        × FirstToken source.now.tokens.now before.parser }
    ensures { let script = source.now.script.now in
        let after = gathered p.new result in
        RootsEnd roots.new (record { code = after.code; members = after.members })
        (parse_roots stage_one script (begin script))
        × (after.diagnostics ≡ 0)
        × (loan after.code ≡ loan (code_of p.old)) }
{
    let mut members: u32 = 0;
    while p.member_follows(Type::EOF) {
        let n = member(p, source, Parser::MAX_LEVELS)?;
        members = push_root(roots, members, n);
    }
    drop_docs(p);
    Ok(Gathering {
        members,
        ..Gathering::default()
    })
}

// ---- roots and errors: these are no fields of the parser, since only the loop over the roots
// writes them

// An error is gathered, behind the faults that were met before it, and the reading goes on at the
// next token that may begin a root; `TOO_DEEP` ends it.
fn recover(
    p: &mut Parser,
    tokens: &[u32],
    errors: &[u32],
    diagnostics: &mut [u32],
    c: Gathering,
    error: Diagnostic,
) -> Result<Gathering, Diagnostic>
    ensures turn { (script roots : List ℕ) (g : Gathered) (e : Diagnostic) (m : State) →
        let before = failed (code_of p.old) error in
        Room script roots diagnostics.old g
        → tokens_from tokens.now 0 ≡ tokens_of (cut script)
        → FailedAt tokens.now before e 0 0 [] m
        → GatheredAre script tokens.now errors.now roots diagnostics.old (collected before c) g
        → TurnEnds script tokens.now errors.now roots diagnostics.new
        (gathered p.new result) (recover_rule stage_one script g e m) }
    ensures same { loan (code_of p.new) ≡ loan (code_of p.old) }
    ensures keeps { KeepsAll p.old p.new }
{
    if error.number == Diagnostic::TOO_DEEP {
        return Err(error);
    }
    let before = c.listed;
    let faults = push_faults(errors, diagnostics, before.diagnostics, before.errors, p.at);
    let n = push_diagnostic(diagnostics, faults.diagnostics, error);
    resume(p);
    synchronize_root(p, tokens);
    let listed = Listed {
        diagnostics: n,
        ..faults
    };
    Ok(Gathering { listed, ..c })
}

// One more root, or one more error.
fn collect_root(
    p: &mut Parser,
    source: &Source,
    errors: &[u32],
    roots: &mut [u32],
    diagnostics: &mut [u32],
    c: Gathering,
) -> Result<Gathering, Diagnostic>
    requires { member_follows (reading p.old) k_eof ≡ true }
    ensures turn { (g : Gathered) (m : State) →
        let before = code_of p.old in
        let script = source.now.script.now in
        let tokens = source.now.tokens.now in
        Room script roots.old diagnostics.old g
        → tokens_from tokens 0 ≡ tokens_of (cut script)
        → Represents tokens before 0 0 [] m
        → GatheredAre script tokens errors.now roots.old diagnostics.old (collected before c) g
        → TurnEnds script tokens errors.now roots.new diagnostics.new
        (gathered p.new result) (collect_step script g m) }
    ensures same { loan (code_of p.new) ≡ loan (code_of p.old) }
{
    match member(p, source, Parser::MAX_LEVELS) {
        Ok(n) => {
            let members = push_root(roots, c.members, n);
            Ok(Gathering { members, ..c })
        }
        Err(error) => recover(p, source.tokens, errors, diagnostics, c, error),
    }
}

// program = prefix*, errors gathered.
fn parse_roots_collect(
    p: &mut Parser,
    source: &Source,
    errors: &[u32],
    roots: &mut [u32],
    diagnostics: &mut [u32],
) -> Result<Gathering, Diagnostic>
    requires { let before = code_of p.old in
        let script = source.now.script.now in
        Begun script source.now.tokens.now before.nodes before.types before.lists roots.old
        × FirstToken source.now.tokens.now before.parser
        × (errors.now ≡ padded (length errors.now) (error_table script))
        × (diagnostic_width * length script ≤ length diagnostics.old) }
    ensures { let script = source.now.script.now in
        CollectEnds script roots.new diagnostics.new (gathered p.new result)
        (parse_roots_collect stage_one script (begin script))
        × (loan (code_of p.new) ≡ loan (code_of p.old)) }
{
    let mut c = Gathering::default();
    while p.member_follows(Type::EOF) {
        c = collect_root(p, source, errors, roots, diagnostics, c)?;
    }
    let before = c.listed;
    let listed = push_faults(errors, diagnostics, before.diagnostics, before.errors, p.at);
    drop_docs(p);
    Ok(Gathering { listed, ..c })
}

// ---- the two readings

// The answer once the roots are read. Behind what is used the arrays are cleared; all of them where
// the reading has failed.
fn finish(
    p: &mut Parser,
    roots: &mut [u32],
    diagnostics: &mut [u32],
    read: Result<Gathering, Diagnostic>,
) -> Parsed
    ensures ends { let after = code_of p.new in
        record {
          answer = parsed_of result;
          arrays = arrays_of after.nodes after.types after.lists roots.new diagnostics.new;
        }
        ≡ finished (gathered p.old read) roots.old diagnostics.old }
    ensures same { loan (code_of p.new) ≡ loan (code_of p.old) }
    ensures as_long { (length p.new.nodes.now ≡ length p.old.nodes.now)
        × (length p.new.types.now ≡ length p.old.types.now)
        × (length p.new.lists.now ≡ length p.old.lists.now) }
{
    let c = match read {
        Ok(c) => c,
        Err(error) => {
            p.nodes.fill(0);
            p.types.fill(0);
            p.lists.fill(0);
            roots.fill(0);
            diagnostics.fill(0);
            return Err(ReadError::Script(error));
        }
    };
    let u = p.used;
    clear_from(p.nodes, Node::WIDTH * u.nodes as usize);
    clear_from(p.types, TypeExpr::WIDTH * u.types as usize);
    clear_from(p.lists, u.cells as usize);
    clear_from(roots, c.members as usize);
    clear_from(
        diagnostics,
        DIAGNOSTIC_WIDTH * c.listed.diagnostics as usize,
    );
    Ok(Counts {
        nodes: u.nodes,
        types: u.types,
        cells: u.cells,
        roots: c.members,
        values: u.values,
        diagnostics: c.listed.diagnostics,
    })
}

// program = prefix*, up to the first error, from the tables of the script.
fn read_cut(
    script: &[u8],
    tokens: &[u32],
    nodes: &mut [u32],
    types: &mut [u32],
    lists: &mut [u32],
    roots: &mut [u32],
    diagnostics: &mut [u32],
) -> Parsed
    requires { Begun script.now tokens.now nodes.old types.old lists.old roots.old }
    ensures { let before = arrays_of nodes.old types.old lists.old
        roots.old diagnostics.old in
        let after = arrays_of nodes.new types.new lists.new
        roots.new diagnostics.new in
        outcome (parse stage_one script.now) before
        ≡ record { answer = parsed_of result; arrays = after } }
{
    // made here and in `read_cut_collect`: tried by a function that makes it, and then no proof
    // has what becomes of the arrays
    let parser_state::State { cur, at, used } = parser_state::State::begin(tokens);
    let mut p = Parser {
        nodes,
        types,
        lists,
        cur,
        at,
        used,
    };
    let read = parse_roots(&mut p, &Source { script, tokens }, roots);
    finish(&mut p, roots, diagnostics, read)
}

// The same, each error gathered with the faults of the lexer in the order in which they are met;
// `TOO_DEEP` ends it. Beside `read_cut`: one call differs, and a closure for it would take four
// references and their clauses.
fn read_cut_collect(
    script: &[u8],
    tokens: &[u32],
    errors: &[u32],
    nodes: &mut [u32],
    types: &mut [u32],
    lists: &mut [u32],
    roots: &mut [u32],
    diagnostics: &mut [u32],
) -> Parsed
    requires { Begun script.now tokens.now nodes.old types.old lists.old roots.old
        × (errors.now ≡ padded (length errors.now) (error_table script.now))
        × (diagnostic_width * length script.now ≤ length diagnostics.old) }
    ensures { let before = arrays_of nodes.old types.old lists.old
        roots.old diagnostics.old in
        let after = arrays_of nodes.new types.new lists.new
        roots.new diagnostics.new in
        outcome (parse_collect stage_one script.now) before
        ≡ record { answer = parsed_of result; arrays = after } }
{
    let parser_state::State { cur, at, used } = parser_state::State::begin(tokens);
    let mut p = Parser {
        nodes,
        types,
        lists,
        cur,
        at,
        used,
    };
    let source = Source { script, tokens };
    let read = parse_roots_collect(&mut p, &source, errors, roots, diagnostics);
    finish(&mut p, roots, diagnostics, read)
}

// ---- the calls

// Refused by `TooLong`, `TooShort` and `NotCut`, in this order, unless the tables are the script's
// and all is long enough.
fn not_read(
    script: &[u8],
    tokens: &[u32],
    errors: &[u32],
    nodes: &[u32],
    types: &[u32],
    lists: &[u32],
    roots: &[u32],
    diagnostics: &[u32],
) -> Result<(), Refusal>
    ensures { refusal_number result
        ≡ not_read script.now tokens.now errors.now (length nodes.now) (length types.now)
        (length lists.now) (length roots.now) (length diagnostics.now) }
{
    refusal(
        script,
        tokens,
        errors,
        nodes,
        types,
        lists,
        roots,
        diagnostics,
    )?;
    if is_cut(script, tokens, errors) {
        Ok(())
    } else {
        Err(Refusal::NotCut)
    }
}

// Each call lends its eight slices and makes its own promise: one generic call would repeat both.

// A strict reading from the tables: `NotCut` where they are not those that cutting the script
// gives.
pub fn read(
    script: &[u8],
    tokens: &[u32],
    errors: &[u32],
    nodes: &mut [u32],
    types: &mut [u32],
    lists: &mut [u32],
    roots: &mut [u32],
    diagnostics: &mut [u32],
) -> Parsed
    ensures { let before = arrays_of nodes.old types.old lists.old
        roots.old diagnostics.old in
        let after = arrays_of nodes.new types.new lists.new
        roots.new diagnostics.new in
        read_promised (parse stage_one) script.now tokens.now
        errors.now before
        ≡ record { answer = parsed_of result; arrays = after } }
{
    // `map_err` names the case: a `From` in ast would serve the four calls alone
    not_read(
        script,
        tokens,
        errors,
        nodes,
        types,
        lists,
        roots,
        diagnostics,
    )
    .map_err(ReadError::Refused)?;
    read_cut(script, tokens, nodes, types, lists, roots, diagnostics)
}

// The same, errors gathered.
pub fn read_collect(
    script: &[u8],
    tokens: &[u32],
    errors: &[u32],
    nodes: &mut [u32],
    types: &mut [u32],
    lists: &mut [u32],
    roots: &mut [u32],
    diagnostics: &mut [u32],
) -> Parsed
    ensures { let before = arrays_of nodes.old types.old lists.old
        roots.old diagnostics.old in
        let after = arrays_of nodes.new types.new lists.new
        roots.new diagnostics.new in
        read_promised (parse_collect stage_one) script.now tokens.now
        errors.now before
        ≡ record { answer = parsed_of result; arrays = after } }
{
    not_read(
        script,
        tokens,
        errors,
        nodes,
        types,
        lists,
        roots,
        diagnostics,
    )
    .map_err(ReadError::Refused)?;
    read_cut_collect(
        script,
        tokens,
        errors,
        nodes,
        types,
        lists,
        roots,
        diagnostics,
    )
}

// Cutting and strict reading, one after the other.
pub fn parse(
    script: &[u8],
    tokens: &mut [u32],
    errors: &mut [u32],
    nodes: &mut [u32],
    types: &mut [u32],
    lists: &mut [u32],
    roots: &mut [u32],
    diagnostics: &mut [u32],
) -> Parsed
    ensures { let before = arrays_of nodes.old types.old lists.old
        roots.old diagnostics.old in
        let after = arrays_of nodes.new types.new lists.new
        roots.new diagnostics.new in
        parse_promised (parse stage_one) script.now tokens.old
        errors.old before
        ≡ record {
          answer = parsed_of result;
          arrays = after;
          tokens = tokens.new;
          errors = errors.new;
        } }
{
    refusal(
        script,
        tokens,
        errors,
        nodes,
        types,
        lists,
        roots,
        diagnostics,
    )
    .map_err(ReadError::Refused)?;
    // `refusal` has tested all that cutting is refused for
    let _ = cut(script, tokens, errors);
    read_cut(script, tokens, nodes, types, lists, roots, diagnostics)
}

// The same, errors gathered.
pub fn parse_collect(
    script: &[u8],
    tokens: &mut [u32],
    errors: &mut [u32],
    nodes: &mut [u32],
    types: &mut [u32],
    lists: &mut [u32],
    roots: &mut [u32],
    diagnostics: &mut [u32],
) -> Parsed
    ensures { let before = arrays_of nodes.old types.old lists.old
        roots.old diagnostics.old in
        let after = arrays_of nodes.new types.new lists.new
        roots.new diagnostics.new in
        parse_promised (parse_collect stage_one) script.now tokens.old
        errors.old before
        ≡ record {
          answer = parsed_of result;
          arrays = after;
          tokens = tokens.new;
          errors = errors.new;
        } }
{
    refusal(
        script,
        tokens,
        errors,
        nodes,
        types,
        lists,
        roots,
        diagnostics,
    )
    .map_err(ReadError::Refused)?;
    // `refusal` has tested all that cutting is refused for
    let _ = cut(script, tokens, errors);
    read_cut_collect(
        script,
        tokens,
        errors,
        nodes,
        types,
        lists,
        roots,
        diagnostics,
    )
}
