// The parser's state, and the functions of parser.rs that take tokens, write records, lists and
// docs, and fail.
#![tactic(auto)]

ghost use Rattle.std.specs.Prelude.{◌≡◌, ◌≢◌, ℕ, ◌+◌, ◌-◌, ◌*◌, ◌<◌, ◌≤◌, List, [], ◌∷◌, ◌++◌};
ghost use Rattle.std.specs.Prelude.{reverse, length, take, drop, IfOk, Option, None};
ghost use Rattle.std.proofs.Math.Seq.{paste};
ghost use Rattle.lex.specs.Answer.{max_bytes};
ghost use Rattle.tokens.specs.Table.{token_of, token_at};
ghost use Rattle.ast.specs.Layout.{node_width, type_width, padded, node_cells, type_cells};
ghost use Rattle.ast.specs.Layout.{token_cells};
ghost use Rattle.rules.specs.Combinators.{Rule, continue, advance, expect, expect_ident};
ghost use Rattle.rules.specs.Combinators.{if_kind, fail_expecting, reject_kind};
ghost use Rattle.rules.specs.Combinators.{push_node, push_node_and, push_type, alloc_slice};
ghost use Rattle.rules.specs.Combinators.{list_until, keep_doc, collect_docs, take_docs};
ghost use Rattle.ast.specs.declared.Node.{Node};
ghost use Rattle.ast.specs.declared.Node.TheVariants as N;
ghost use Rattle.ast.specs.declared.TypeExpr.{TypeExpr};
ghost use Rattle.parser_state.specs.Represents.{Kept, code_of, code_after, reading, with_lists, IsPlace};
ghost use Rattle.parser_state.specs.Keeps.{KeepsAll, KeepsNodes, KeepsTypes};
ghost use Rattle.parser_state.specs.Keeps.{KeepsNodesTypes, KeepsNodesLists, KeepsTypesLists};
ghost use Rattle.parser_state.specs.Refines.{Refines, RefinesBy, stack_unchanged, all_grown, Takes};
ghost use Rattle.parser_state.specs.Refines.{Gives, GivesCount, Refuses, Pushes, Lists, failed};
ghost use Rattle.parser_state.specs.Refines.{fail_at, no_docs_wait, at_entry, doc_at, doc_follows};
ghost use Rattle.parser_state.specs.Refines.{member_follows, closed};
ghost use Rattle.parser_state.specs.Members.{members_until, ReadsEach, ReadsEachBy, KeepsEach};
ghost use Rattle.parser_state.specs.Wherever.{AnyArrays, AnyTypesLists, AnyNodesLists};
ghost use Rattle.parser_state.specs.Wherever.{AnyNodesTypes, AnyNodes, ReadsEachAny, lending};

use ast::lent::CELLS_PER_BYTE;
use ast::{Node, NodeId, NodeKind, Run, TypeExpr, TypeExprId};
use lex::{Diagnostic, MAX_BYTES, Type};
use tokens::{Entry, token_at};

#[cfg(test)]
mod tests;

// How much is made: node and type records, value numbers, list cells; the pending docs; and the
// cells of lists under construction.
#[derive(Clone, Copy, Default)]
pub struct Used {
    pub nodes: u32,
    pub values: u32,
    pub types: u32,
    pub docs: u32,
    pub cells: u32,
    pub scratch: u32,
}

// What a parser has besides its arrays: the token being read, the number of its record, and what is
// used. A copy of it can be kept.
#[derive(Clone, Copy)]
pub struct State {
    pub cur: Entry,
    pub at: u32,
    pub used: Used,
}

impl State {
    // At the first token of a table, with nothing used.
    pub fn begin(tokens: &[u32]) -> State
        ensures { (token_of result.cur ≡ token_at tokens.now 0)
            × (result.at ≡ 0)
            × (result.used ≡ record {
              nodes = 0;
              values = 0;
              types = 0;
              docs = 0;
              cells = 0;
              scratch = 0;
            }) }
    {
        State {
            cur: token_at(tokens, 0),
            at: 0,
            used: Used::default(),
        }
    }
}

// The arrays that are written, the token being read and the number of its record, and what is used
// of the arrays. The counts stand beside the arrays since these are lent by the C interface and
// filled in place, types and lists from both ends. The token table is no field: what reads no token
// promises for every table. A reader that fails answers its error; only collecting mode goes on
// behind one.
#[derive(Drop)]
pub struct Parser<'a> {
    pub nodes: &'a mut [u32],
    pub types: &'a mut [u32],
    pub lists: &'a mut [u32],
    pub cur: Entry,
    pub at: u32,
    pub used: Used,
}

// The most list cells that a reading makes.
const MAX_LISTS: usize = CELLS_PER_BYTE * MAX_BYTES;

// A reading makes fewer value numbers.
const MAX_VALUES: u32 = 4000000000;

// Cells are copied to a place of an array.
fn put(dst: &mut [u32], at: usize, cells: &[u32])
    requires { at + length cells.now ≤ length dst.old }
    ensures { dst.new ≡ paste dst.old at cells.now (length cells.now) }
{
    dst[at..at + cells.len()].copy_from_slice(cells);
}

// The cells of a record: those at its head, its fields, and zeros behind them.
fn record<const H: usize, const N: usize, const W: usize>(
    head: [u32; H],
    fields: [u32; N],
) -> [u32; W]
    requires { H + N ≤ W }
    ensures { result ≡ padded W (head.entry ++ fields.entry) }
{
    let mut cells = [0; W];
    put(&mut cells, 0, &head);
    put(&mut cells, H, &fields);
    cells
}

// The last of the `scratch` cells at the far end, which lie in reverse, go to the front as a list.
fn move_list(part: &mut [u32], n: usize, scratch: usize)
    requires { (n ≤ scratch) × (n + scratch ≤ length part.old) }
    ensures { let before = part.old in
        let cells = reverse (take n (drop (length before - scratch) before)) in
        part.new ≡ paste before 0 cells n }
{
    // copy_from_slice and reverse in its place: an extern took a sixth more time
    for i in 0..n {
        part[i] = part[part.len() - scratch + (n - 1 - i)];
    }
}

// Where the span of an error that names a token starts.
fn span_start(t: Entry) -> u32
    ensures { result ≡ (at_entry 0 0 (token_of t)).start }
{
    if t.kind == Type::S {
        t.start.wrapping_add(1)
    } else {
        t.start
    }
}

// An error that names a token.
#[tactic(auto, unfolding(crate::specs::Refines::at_entry))]
fn at_token(number: u32, wanted: u32, t: Entry) -> Diagnostic
    ensures { result ≡ at_entry number wanted (token_of t) }
{
    Diagnostic {
        number,
        start: span_start(t),
        len: t.len,
        wanted,
        seen: t.kind,
    }
}

impl Parser<'_> {
    pub const MAX_BYTES: usize = lex::MAX_BYTES;

    pub const MAX_LEVELS: usize = 128;

    // ---- tokens

    // The kind of the token being read.
    pub fn kind(&self) -> u32
        ensures { result ≡ self.now.cur.kind }
    {
        self.cur.kind
    }

    // The next token is read.
    pub fn advance(&mut self, tokens: &[u32])
        requires { self.old.cur.kind ≢ 1 }
        ensures reads { Takes tokens.now advance (code_of self.old) (code_of self.new) }
        ensures wherever { AnyArrays (Takes tokens.now advance) (code_of self.old)
            (code_of self.new) }
        ensures keeps { KeepsAll self.old self.new }
    {
        let i = self.at;
        if MAX_BYTES <= i as usize {
            // no script has more tokens
            self.cur = Entry::EOF;
            return;
        }
        self.cur = token_at(tokens, i as usize + 1);
        self.at = i + 1;
    }

    // The error at the token being read.
    pub fn fail_expecting(&self, number: u32, wanted: u32) -> Diagnostic
        ensures reads { let before = code_of self.now in
            (tokens : List ℕ) → Refuses tokens number wanted before (failed before result) }
        ensures wherever { let before = code_of self.now in
            (tokens : List ℕ) →
            AnyArrays (Refuses tokens number wanted) before (failed before result) }
    {
        at_token(number, wanted, self.cur)
    }

    // The error at the token of record `at`.
    pub fn fail_at(&self, tokens: &[u32], number: u32, at: u32) -> Diagnostic
        ensures reads { let before = code_of self.now in
            Refines tokens.now 0 0 (fail_at {A = ℕ} number (token_at tokens.now at))
            (λ n. n ≡ 0) stack_unchanged 0 0 0 before (failed before result) }
        ensures wherever { let before = code_of self.now in
            AnyArrays (Refines tokens.now 0 0 (fail_at {A = ℕ} number (token_at tokens.now at))
            (λ n. n ≡ 0) stack_unchanged 0 0 0) before (failed before result) }
    {
        at_token(number, 0, token_at(tokens, at as usize))
    }

    // A token of this kind is taken; before another the reading fails with this number.
    pub fn expect_or(
        &mut self,
        tokens: &[u32],
        kind: u32,
        number: u32,
        wanted: u32,
    ) -> Result<(), Diagnostic>
        requires { 1 < kind }
        ensures reads { Takes tokens.now (if_kind kind advance (fail_expecting number wanted))
            (code_of self.old) (code_after self.new result) }
        ensures wherever { let rule = if_kind kind advance (fail_expecting number wanted) in
            AnyArrays (Takes tokens.now rule) (code_of self.old) (code_after self.new result) }
        ensures keeps { KeepsAll self.old self.new }
    {
        if self.kind() == kind {
            self.advance(tokens);
            Ok(())
        } else {
            Err(self.fail_expecting(number, wanted))
        }
    }

    // A token of the wanted kind is taken.
    pub fn expect(&mut self, tokens: &[u32], wanted: u32) -> Result<(), Diagnostic>
        requires { 1 < wanted }
        ensures reads { Takes tokens.now (expect wanted) (code_of self.old)
            (code_after self.new result) }
        ensures wherever { AnyArrays (Takes tokens.now (expect wanted)) (code_of self.old)
            (code_after self.new result) }
        ensures keeps { KeepsAll self.old self.new }
    {
        self.expect_or(tokens, wanted, Diagnostic::EXPECTED_TOKEN, wanted)
    }

    // A name is taken.
    pub fn expect_ident(&mut self, tokens: &[u32]) -> Result<(), Diagnostic>
        ensures reads { Takes tokens.now expect_ident (code_of self.old)
            (code_after self.new result) }
        ensures wherever { AnyArrays (Takes tokens.now expect_ident) (code_of self.old)
            (code_after self.new result) }
        ensures keeps { KeepsAll self.old self.new }
    {
        self.expect_or(tokens, Type::IDENT, Diagnostic::EXPECTED_IDENTIFIER, 0)
    }

    // The reading fails at a token of this kind, with this number.
    pub fn reject_kind(&self, rejected: u32, number: u32) -> Result<(), Diagnostic>
        ensures reads { (tokens : List ℕ) →
            Refines tokens 0 0 (reject_kind rejected number) (λ n. n ≡ 0) stack_unchanged 0 0 0
            (code_of self.now) (code_after self.now result) }
        ensures wherever { (tokens : List ℕ) →
            AnyArrays (Refines tokens 0 0 (reject_kind rejected number) (λ n. n ≡ 0)
            stack_unchanged 0 0 0) (code_of self.now) (code_after self.now result) }
    {
        if self.kind() == rejected {
            return Err(self.fail_expecting(number, 0));
        }
        Ok(())
    }

    // Another member of a list follows.
    pub fn member_follows(&self, stop: u32) -> bool
        ensures { result ≡ member_follows (reading self.now) stop }
    {
        let k = self.kind();
        k != Type::EOF && k != stop
    }

    // The token being read is a doc.
    fn doc_follows(&self) -> bool
        ensures { result ≡ doc_follows (reading self.now) }
    {
        self.kind() == Type::DOC
    }

    // ---- records

    // Where a record goes that has `made` before it, if there is room among `len` cells.
    fn place(&self, made: u32, width: usize, len: usize) -> Option<usize>
        requires { width ≤ node_width }
        ensures { IsPlace (code_of self.now) made width len result }
    {
        let at = width * made as usize;
        if (made as usize) < MAX_BYTES && at + width <= len {
            Some(at)
        } else {
            None
        }
    }

    // No reading meets that there is no room (`Credit`): number 0, an empty list or no more is what
    // is answered then, here and below; an Option would be tested by callers that have no error.

    // The next type, where there is room: its kind and its fields, which are seven at most.
    pub fn push_type<const N: usize>(&mut self, kind: u32, fields: [u32; N]) -> TypeExprId
        ensures reads { (tokens : List ℕ) (t : TypeExpr) →
            padded type_width (kind ∷ fields.entry) ≡ type_cells t
            → Refines tokens 1 0 (push_type t) (λ i. i ≡ result) stack_unchanged 0 0 0
            (code_of self.old) (code_of self.new) }
        ensures wherever { (tokens : List ℕ) (t : TypeExpr) →
            padded type_width (kind ∷ fields.entry) ≡ type_cells t
            → AnyNodesLists (Refines tokens 1 0 (push_type t) (λ i. i ≡ result) stack_unchanged
            0 0 0) (code_of self.old) (code_of self.new) }
        ensures keeps { KeepsNodesLists self.old self.new }
    {
        if TypeExpr::WIDTH - 1 < N {
            return TypeExprId(0);
        }
        let n = self.used.types;
        let Some(at) = self.place(n, TypeExpr::WIDTH, self.types.len()) else {
            return TypeExprId(0);
        };
        self.used.types = n + 1;
        let cells: [u32; TypeExpr::WIDTH] = record([kind], fields);
        put(self.types, at, &cells);
        TypeExprId(n)
    }

    // The next node, where there is room: its kind, its value number and its fields, which are
    // fourteen at most. `more` value numbers go with it that no node has. Callers list the cells of
    // tokens and runs: Rust joins no arrays, so a `From<Entry>` for three cells would not help.
    // Each node has its own function, which promises its rule: a `Node` in between would be built
    // only to be taken apart.
    pub fn push_node<const N: usize>(&mut self, kind: u32, fields: [u32; N], more: u32) -> NodeId
        requires { more ≤ max_bytes }
        ensures reads { (tokens : List ℕ) (f : ℕ → Node) (rooms : ℕ) →
            let id = self.old.used.values in
            1 + more ≤ 40000 * rooms
            → padded node_width (kind ∷ id ∷ fields.entry) ≡ node_cells (f id)
            → Refines tokens rooms 0 (push_node_and more f) (λ i. i ≡ result) stack_unchanged 0 0 0
            (code_of self.old) (code_of self.new) }
        ensures wherever { (tokens : List ℕ) (f : ℕ → Node) (rooms : ℕ) →
            let id = self.old.used.values in
            1 + more ≤ 40000 * rooms
            → padded node_width (kind ∷ id ∷ fields.entry) ≡ node_cells (f id)
            → AnyTypesLists (Refines tokens rooms 0 (push_node_and more f) (λ i. i ≡ result)
            stack_unchanged 0 0 0) (code_of self.old) (code_of self.new) }
        ensures keeps { KeepsTypesLists self.old self.new }
    {
        if Node::WIDTH - 2 < N {
            return NodeId(0);
        }
        let n = self.used.nodes;
        let Some(at) = self.place(n, Node::WIDTH, self.nodes.len()) else {
            return NodeId(0);
        };
        let values = self.used.values;
        if MAX_VALUES <= values {
            return NodeId(0);
        }
        self.used.nodes = n + 1;
        self.used.values = values + (1 + more);
        let cells: [u32; Node::WIDTH] = record([kind, values], fields);
        put(self.nodes, at, &cells);
        NodeId(n)
    }

    // A node of a token and two cells.
    pub fn push_token_node(&mut self, kind: u32, t: Entry, a: u32, b: u32) -> NodeId
        ensures reads { (tokens : List ℕ) (f : ℕ → Node) →
            node_cells (f self.old.used.values)
            ≡ padded node_width
            (kind ∷ self.old.used.values ∷ token_cells (token_of t) ++ (a ∷ b ∷ []))
            → Refines tokens 1 0 (push_node_and 0 f) (λ i. i ≡ result) stack_unchanged 0 0 0
            (code_of self.old) (code_of self.new) }
        ensures wherever { (tokens : List ℕ) (f : ℕ → Node) →
            node_cells (f self.old.used.values)
            ≡ padded node_width
            (kind ∷ self.old.used.values ∷ token_cells (token_of t) ++ (a ∷ b ∷ []))
            → AnyTypesLists (Refines tokens 1 0 (push_node_and 0 f) (λ i. i ≡ result)
            stack_unchanged 0 0 0) (code_of self.old) (code_of self.new) }
        ensures keeps { KeepsTypesLists self.old self.new }
    {
        self.push_node(kind, [t.kind, t.start, t.len, a, b], 0)
    }

    // A call.
    pub fn push_call(&mut self, target: NodeId, args: Run) -> NodeId
        ensures reads { (tokens : List ℕ) →
            Refines tokens 1 0 (push_node (λ id. N.Call id target args)) (λ i. i ≡ result)
            stack_unchanged 0 0 0 (code_of self.old) (code_of self.new) }
        ensures wherever { (tokens : List ℕ) →
            let rule = push_node (λ id. N.Call id target args) in
            AnyTypesLists (Refines tokens 1 0 rule (λ i. i ≡ result) stack_unchanged 0 0 0)
            (code_of self.old) (code_of self.new) }
        ensures keeps { KeepsTypesLists self.old self.new }
    {
        self.push_node(NodeKind::CALL, [target.0, args.start, args.len], 0)
    }

    // A field of a node.
    pub fn push_field(&mut self, target: NodeId, name: Entry) -> NodeId
        ensures reads { (tokens : List ℕ) →
            Refines tokens 1 0 (push_node (λ id. N.Field id target (token_of name)))
            (λ i. i ≡ result) stack_unchanged 0 0 0 (code_of self.old) (code_of self.new) }
        ensures wherever { (tokens : List ℕ) →
            let rule = push_node (λ id. N.Field id target (token_of name)) in
            AnyTypesLists (Refines tokens 1 0 rule (λ i. i ≡ result) stack_unchanged 0 0 0)
            (code_of self.old) (code_of self.new) }
        ensures keeps { KeepsTypesLists self.old self.new }
    {
        let fields = [target.0, name.kind, name.start, name.len];
        self.push_node(NodeKind::FIELD, fields, 0)
    }

    // A let.
    pub fn push_let(&mut self, docs: Run, name: Entry, rhs: NodeId) -> NodeId
        ensures reads { (tokens : List ℕ) →
            Refines tokens 1 0 (push_node (λ id. N.Let id docs (token_of name) rhs))
            (λ i. i ≡ result) stack_unchanged 0 0 0 (code_of self.old) (code_of self.new) }
        ensures wherever { (tokens : List ℕ) →
            let rule = push_node (λ id. N.Let id docs (token_of name) rhs) in
            AnyTypesLists (Refines tokens 1 0 rule (λ i. i ≡ result) stack_unchanged 0 0 0)
            (code_of self.old) (code_of self.new) }
        ensures keeps { KeepsTypesLists self.old self.new }
    {
        let fields = [docs.start, docs.len, name.kind, name.start, name.len, rhs.0];
        self.push_node(NodeKind::LET, fields, 0)
    }

    // A fn, with a value number more for each argument.
    pub fn push_fn(
        &mut self,
        docs: Run,
        name: Entry,
        args: Run,
        return_type: TypeExprId,
        body: Run,
    ) -> NodeId
        requires { args.len ≤ max_bytes }
        ensures reads { (tokens : List ℕ) →
            Refines tokens 2 0
            (push_node_and args.len (λ id. N.Fn id docs (token_of name) args return_type body))
            (λ i. i ≡ result) stack_unchanged 0 0 0 (code_of self.old) (code_of self.new) }
        ensures wherever { (tokens : List ℕ) →
            let node = λ (id : ℕ). N.Fn id docs (token_of name) args return_type body in
            let rule = push_node_and args.len node in
            AnyTypesLists (Refines tokens 2 0 rule (λ i. i ≡ result) stack_unchanged 0 0 0)
            (code_of self.old) (code_of self.new) }
        ensures keeps { KeepsTypesLists self.old self.new }
    {
        let fields = [
            docs.start,
            docs.len,
            name.kind,
            name.start,
            name.len,
            args.start,
            args.len,
            return_type.0,
            body.start,
            body.len,
        ];
        self.push_node(NodeKind::FN, fields, args.len)
    }

    // A match.
    pub fn push_match(&mut self, cases: Run, default: Entry, body: Run) -> NodeId
        ensures reads { (tokens : List ℕ) →
            Refines tokens 1 0 (push_node (λ id. N.Match id cases (token_of default) body))
            (λ i. i ≡ result) stack_unchanged 0 0 0 (code_of self.old) (code_of self.new) }
        ensures wherever { (tokens : List ℕ) →
            let rule = push_node (λ id. N.Match id cases (token_of default) body) in
            AnyTypesLists (Refines tokens 1 0 rule (λ i. i ≡ result) stack_unchanged 0 0 0)
            (code_of self.old) (code_of self.new) }
        ensures keeps { KeepsTypesLists self.old self.new }
    {
        let fields = [
            cases.start,
            cases.len,
            default.kind,
            default.start,
            default.len,
            body.start,
            body.len,
        ];
        self.push_node(NodeKind::MATCH, fields, 0)
    }

    // An extern.
    pub fn push_extern(&mut self, src: Entry, docs: Run, name: Entry, fns: Run) -> NodeId
        ensures reads { (tokens : List ℕ) →
            Refines tokens 1 0
            (push_node (λ id. N.Extern id (token_of src) docs (token_of name) fns))
            (λ i. i ≡ result) stack_unchanged 0 0 0 (code_of self.old) (code_of self.new) }
        ensures wherever { (tokens : List ℕ) →
            let rule = push_node (λ id. N.Extern id (token_of src) docs (token_of name) fns) in
            AnyTypesLists (Refines tokens 1 0 rule (λ i. i ≡ result) stack_unchanged 0 0 0)
            (code_of self.old) (code_of self.new) }
        ensures keeps { KeepsTypesLists self.old self.new }
    {
        let fields = [
            src.kind, src.start, src.len, docs.start, docs.len, name.kind, name.start, name.len,
            fns.start, fns.len,
        ];
        self.push_node(NodeKind::EXTERN, fields, 0)
    }

    // ---- lists

    // Cells of a list under construction, at the far end of the list table, where they lie in
    // reverse: they are given the last first.
    pub fn push_cells(&mut self, cells: &[u32])
        ensures reads { (tokens : List ℕ) →
            Pushes tokens (2 * length cells.now) (reverse cells.now) (code_of self.old)
            (code_of self.new) }
        ensures wherever { (tokens : List ℕ) →
            AnyNodesTypes (Pushes tokens (2 * length cells.now) (reverse cells.now))
            (code_of self.old) (code_of self.new) }
        ensures keeps { KeepsNodesTypes self.old self.new }
    {
        let n = self.used.scratch as usize + cells.len();
        if MAX_LISTS < n {
            return;
        }
        if self.lists.len() < n {
            return;
        }
        self.used.scratch = n as u32;
        let at = self.lists.len() - n;
        put(self.lists, at, cells);
    }

    // One cell.
    pub fn push_cell(&mut self, v: u32)
        ensures reads { (tokens : List ℕ) →
            Pushes tokens 2 (v ∷ []) (code_of self.old) (code_of self.new) }
        ensures wherever { (tokens : List ℕ) →
            AnyNodesTypes (Pushes tokens 2 (v ∷ [])) (code_of self.old) (code_of self.new) }
        ensures keeps { KeepsNodesTypes self.old self.new }
    {
        self.push_cells(&[v]);
    }

    // A token.
    pub fn push_token(&mut self, t: Entry)
        ensures reads { (tokens : List ℕ) →
            Pushes tokens 6 (token_cells (token_of t)) (code_of self.old) (code_of self.new) }
        ensures wherever { (tokens : List ℕ) →
            AnyNodesTypes (Pushes tokens 6 (token_cells (token_of t)))
            (code_of self.old) (code_of self.new) }
        ensures keeps { KeepsNodesTypes self.old self.new }
    {
        self.push_cells(&[t.len, t.start, t.kind]);
    }

    // A name, and the number of the type or node that goes with it.
    pub fn push_named(&mut self, name: Entry, id: u32)
        ensures reads { (tokens : List ℕ) →
            Pushes tokens 8 (token_cells (token_of name) ++ (id ∷ [])) (code_of self.old)
            (code_of self.new) }
        ensures wherever { (tokens : List ℕ) →
            AnyNodesTypes (Pushes tokens 8 (token_cells (token_of name) ++ (id ∷ [])))
            (code_of self.old) (code_of self.new) }
        ensures keeps { KeepsNodesTypes self.old self.new }
    {
        self.push_cells(&[id, name.len, name.start, name.kind]);
    }

    // The cells above the mark become a list.
    pub fn alloc_slice(&mut self, mark: u32, members: u32) -> Run
        ensures reads { ((tokens : List ℕ) →
            Lists tokens alloc_slice (λ run. run ≡ result) 0 0 0 mark members (code_of self.old)
            (code_of self.new))
            × (result.len ≤ max_bytes) }
        ensures wherever { (tokens : List ℕ) →
            AnyNodesTypes (Lists tokens alloc_slice (λ run. run ≡ result) 0 0 0 mark members)
            (code_of self.old) (code_of self.new) }
        ensures keeps { KeepsNodesTypes self.old self.new }
    {
        let none = Run::default();
        if MAX_BYTES < members as usize {
            return none;
        }
        let scratch = self.used.scratch;
        if scratch < mark {
            return none;
        }
        let n = scratch - mark;
        let cells = self.used.cells;
        let at = cells as usize;
        if self.lists.len() < at + n as usize + scratch as usize {
            return none;
        }
        if MAX_LISTS < n as usize {
            return none;
        }
        if MAX_LISTS < cells as usize {
            return none;
        }
        self.used.cells = cells + n;
        self.used.scratch = mark;
        move_list(&mut self.lists[at..], n as usize, scratch as usize);
        Run {
            start: cells,
            len: members,
        }
    }

    // The end of a list: the closing token, then `alloc_slice`.
    pub fn close(
        &mut self,
        tokens: &[u32],
        stop: u32,
        mark: u32,
        members: u32,
    ) -> Result<Run, Diagnostic>
        requires { 1 < stop }
        ensures reads { Lists tokens.now (closed stop) (Gives result) 1 1 8 mark members
            (code_of self.old) (code_after self.new result) }
        ensures wherever { AnyNodesTypes (Lists tokens.now (closed stop) (Gives result) 1 1 8 mark
            members) (code_of self.old) (code_after self.new result) }
        ensures short { IfOk result (λ run. run.len ≤ max_bytes) }
        ensures keeps { KeepsNodesTypes self.old self.new }
    {
        self.expect(tokens, stop)?;
        Ok(self.alloc_slice(mark, members))
    }

    // Members up to a closing token, each of which pushes its cells, and the token: how many.
    pub fn members_until<F: Fn(&mut Parser) -> Result<(), Diagnostic>>(
        &mut self,
        tokens: &[u32],
        stop: u32,
        member: F,
    ) -> Result<u32, Diagnostic>
        requires stop { 1 < stop }
        requires callable { F.IsAlwaysCallable member }
        requires reads { (item : Rule (List ℕ))
            × ReadsEach tokens.now item (F.post member) }
        ensures reads { (kept : Kept) (item : Rule (List ℕ)) →
            ReadsEachBy kept tokens.now item (F.post member)
            → RefinesBy kept tokens.now 0 0 (members_until stop item)
            (GivesCount tokens.now (code_of self.new) result) all_grown 1 1 8 (code_of self.old)
            (code_after self.new result) }
        ensures wherever { (kept : Kept) (item : Rule (List ℕ)) (nodes types : Option (List ℕ)) →
            ReadsEachAny kept tokens.now item nodes types (F.post member)
            → RefinesBy kept tokens.now 0 0 (members_until stop item)
            (GivesCount tokens.now (code_of self.new) result) all_grown 1 1 8
            (lending nodes types None (code_of self.old))
            (lending nodes types None (code_after self.new result)) }
        ensures nodes { KeepsEach KeepsNodes (F.post member) → KeepsNodes self.old self.new }
        ensures types { KeepsEach KeepsTypes (F.post member) → KeepsTypes self.old self.new }
    {
        // counted by hand: `from_fn` over this test and call, then `try_fold`, is the same loop in
        // more words
        let mut members: u32 = 0;
        while self.member_follows(stop) {
            member(self)?;
            members = members.wrapping_add(1);
        }
        self.expect(tokens, stop)?;
        Ok(members)
    }

    // Members up to a closing token, which become a list.
    pub fn list_until<F: Fn(&mut Parser) -> Result<(), Diagnostic>>(
        &mut self,
        tokens: &[u32],
        stop: u32,
        member: F,
    ) -> Result<Run, Diagnostic>
        requires stop { 1 < stop }
        requires callable { F.IsAlwaysCallable member }
        requires reads { (item : Rule (List ℕ)) × ReadsEach tokens.now item (F.post member) }
        ensures reads { (kept : Kept) (item : Rule (List ℕ)) →
            ReadsEachBy kept tokens.now item (F.post member)
            → RefinesBy kept tokens.now 0 0 (list_until stop item) (Gives result) stack_unchanged
            1 1 8 (code_of self.old) (code_after self.new result) }
        ensures wherever { (kept : Kept) (item : Rule (List ℕ)) (nodes types : Option (List ℕ)) →
            ReadsEachAny kept tokens.now item nodes types (F.post member)
            → RefinesBy kept tokens.now 0 0 (list_until stop item) (Gives result) stack_unchanged
            1 1 8 (lending nodes types None (code_of self.old))
            (lending nodes types None (code_after self.new result)) }
        ensures short { IfOk result (λ run. run.len ≤ max_bytes) }
        ensures nodes { KeepsEach KeepsNodes (F.post member) → KeepsNodes self.old self.new }
        ensures types { KeepsEach KeepsTypes (F.post member) → KeepsTypes self.old self.new }
    {
        let mark = self.used.scratch;
        let members = self.members_until(tokens, stop, member)?;
        Ok(self.alloc_slice(mark, members))
    }

    // ---- docs

    // The token of record `at` is a pending doc, at the far end of the type array.
    fn push_doc(&mut self, tokens: &[u32], at: u32)
        ensures reads { (n : ℕ) →
            Refines tokens.now 1 3 (keep_doc n (token_at tokens.now at))
            (λ t. t ≡ continue n) stack_unchanged 0 0 0 (code_of self.old) (code_of self.new) }
        ensures wherever { (n : ℕ) →
            AnyNodesLists (Refines tokens.now 1 3 (keep_doc n (token_at tokens.now at))
            (λ t. t ≡ continue n) stack_unchanged 0 0 0) (code_of self.old) (code_of self.new) }
        ensures keeps { KeepsNodesLists self.old self.new }
    {
        let n = self.used.docs;
        let Some(before) = self.place(n, 3, self.types.len()) else {
            return;
        };
        self.used.docs = n + 1;
        let d = token_at(tokens, at as usize);
        let to = self.types.len() - (before + 3);
        put(self.types, to, &[d.len, d.start, d.kind]);
    }

    // The docs that stand next are pending.
    pub fn collect_docs(&mut self, tokens: &[u32])
        ensures reads { Refines tokens.now 0 0 collect_docs (λ n. n ≡ 0) stack_unchanged 0 0 0
            (code_of self.old) (code_of self.new) }
        ensures wherever { AnyNodesLists (Refines tokens.now 0 0 collect_docs (λ n. n ≡ 0)
            stack_unchanged 0 0 0) (code_of self.old) (code_of self.new) }
        ensures keeps { KeepsNodesLists self.old self.new }
    {
        while self.doc_follows() {
            let i = self.at;
            self.advance(tokens);
            self.push_doc(tokens, i);
        }
    }

    // The last `n` cells of the types go into the lists, the last first.
    fn move_docs(&mut self, at: usize, n: usize)
        requires { (n ≤ length self.old.types.now) × (at + n ≤ length self.old.lists.now) }
        ensures { let before = code_of self.old in
            let cells = reverse (drop (length before.types - n) before.types) in
            code_of self.new ≡ with_lists before (paste before.lists at cells n) }
    {
        // tried with slices of both arrays, which are lent at once: that gets no proof
        for i in 0..n {
            self.lists[at + i] = self.types[self.types.len() - 1 - i];
        }
    }

    // The pending docs become a list.
    pub fn take_docs(&mut self) -> Run
        ensures reads { ((tokens : List ℕ) →
            Refines tokens 0 0 take_docs (λ t. t ≡ result) stack_unchanged 0 0 0
            (code_of self.old) (code_of self.new))
            × (self.new.cur ≡ self.old.cur) }
        ensures wherever { (tokens : List ℕ) →
            AnyNodes (Refines tokens 0 0 take_docs (λ t. t ≡ result) stack_unchanged 0 0 0)
            (code_of self.old) (code_of self.new) }
        ensures keeps { KeepsNodesTypes self.old self.new }
    {
        let none = Run::default();
        let docs = self.used.docs;
        let cells = self.used.cells;
        let at = cells as usize;
        if MAX_BYTES < docs as usize {
            return none;
        }
        if MAX_LISTS < cells as usize {
            return none;
        }
        let n = 3 * docs as usize;
        if self.types.len() < n {
            return none;
        }
        if self.lists.len() < at + n {
            return none;
        }
        self.used.docs = 0;
        self.used.cells = cells + 3 * docs;
        self.move_docs(at, n);
        Run {
            start: cells,
            len: docs,
        }
    }

    // A pending doc, whose cells lie the last first.
    fn doc_at(&self, at: usize) -> Entry
        requires { at + 3 ≤ length self.now.types.now }
        ensures { result ≡ doc_at self.now.types.now at }
    {
        Entry {
            kind: self.types[at + 2],
            start: self.types[at + 1],
            len: self.types[at],
        }
    }

    // The reading fails where there are pending docs: at the last of them where the script ends,
    // else at the first.
    pub fn require_no_docs(&self) -> Result<(), Diagnostic>
        ensures reads { (tokens : List ℕ) →
            Refines tokens 0 0 no_docs_wait (λ n. n ≡ 0) stack_unchanged 0 0 0
            (code_of self.now) (code_after self.now result) }
        ensures wherever { (tokens : List ℕ) →
            AnyNodesLists (Refines tokens 0 0 no_docs_wait (λ n. n ≡ 0) stack_unchanged 0 0 0)
            (code_of self.now) (code_after self.now result) }
    {
        let docs = self.used.docs;
        if docs == 0 {
            return Ok(());
        }
        if MAX_BYTES < docs as usize {
            return Ok(());
        }
        let n = 3 * docs as usize;
        if self.types.len() < n {
            return Ok(());
        }
        if self.kind() == Type::EOF {
            let last = self.doc_at(self.types.len() - n);
            return Err(at_token(Diagnostic::DOCS_ATTACHED_TO_NOTHING, 0, last));
        }
        let first = self.doc_at(self.types.len() - 3);
        Err(at_token(Diagnostic::DOCS_BEFORE_SOMETHING_ELSE, 0, first))
    }
}
