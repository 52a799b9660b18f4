// Tokens and lists, and forms of them. The cells stay beside the writer: a list's closures read
// them while they lend the writer.
ghost use Rattle.std.specs.Prelude.{ℕ, List, [], ◌∷◌, ◌+◌, ◌<◌, map};
ghost use Rattle.ast.specs.Schema.{member_width, members};
ghost use Rattle.listing.specs.Text.{gap, kind_name, token, pair, branch, extern_fn, listed};
ghost use Rattle.listing.specs.Text.{tokens, ids, pairs, tuple, form};
ghost use Rattle.listing.specs.Field.{field_text};
ghost use Rattle.listing.specs.Lists.{Lists, ListsEach};
ghost use Rattle.text.specs.Emit.{Writes};

use crate::emit::{Listed, Malformed, write_next_number};
use ast::Run;
use ast::decode::{cell, run_at, token_at};
use ast::schema::Sort;
use lex::{Token, Type};
use text::Writer;

fn write_kind(kind: u32, w: &mut Writer) -> Listed
    ensures { Lists (kind_name kind) w.old w.new result }
{
    let name = Type::name(kind).ok_or(Malformed)?;
    w.write_text(name.as_bytes());
    Ok(())
}

// A token, `(kind start len)`. Not by console's `TokenForm`: `write!` may fail (see text's
// `Writer`), and a number that is no kind is malformed here, where `TokenForm` prints no name.
fn write_token(t: Token, w: &mut Writer) -> Listed
    ensures { Lists (token t) w.old w.new result }
{
    w.write_byte(b'(');
    write_kind(t.kind, w)?;
    write_gap(1, w);
    w.write_number(t.start);
    write_next_number(t.len, w);
    w.write_byte(b')');
    Ok(())
}

// The blank in front of member `i`; the first has none. A function of its own: the loop of
// `write_list` has the text of either branch from its one clause.
fn write_gap(i: usize, w: &mut Writer)
    ensures { Writes (gap i) w.old w.new }
{
    if 0 < i {
        w.write_byte(b' ');
    }
}

// A run of members of a list, each by `write_member` from its first cell.
fn write_list<F: Fn(usize, &mut Writer) -> Listed>(
    lists: &[u32],
    sort: Sort,
    run: Run,
    w: &mut Writer,
    write_member: F,
) -> Listed
    requires callable { (j : ℕ) (u : _) → j < 1099511627776 → F.pre write_member j u }
    ensures { (member : ℕ → List ℕ) → ListsEach (F.post write_member) 1099511627776 member
        → Lists (listed (member_width (members sort)) lists.now member run) w.old w.new result }
{
    let width = sort.width();
    let start = run.start as usize;
    let len = run.len as usize;
    if lists.len() < start + width * len {
        return Err(Malformed);
    }
    w.write_byte(b'(');
    for i in 0..len {
        write_gap(i, w);
        write_member(start + width * i, w)?;
    }
    w.write_byte(b')');
    Ok(())
}

fn write_tokens(lists: &[u32], run: Run, w: &mut Writer) -> Listed
    ensures { Lists (tokens lists.now run) w.old w.new result }
{
    write_list(
        lists,
        Sort::Tokens,
        run,
        w,
        |j, w| write_token(token_at(lists, j), w),
    )
}

// The nodes of a body, of arguments, of an array.
fn write_ids(lists: &[u32], run: Run, w: &mut Writer) -> Listed
    ensures { Lists (ids lists.now run) w.old w.new result }
{
    write_list(lists, Sort::Nodes, run, w, |j, w| {
        w.write_number(cell(lists, j, 0) as usize);
        Ok(())
    })
}

// A token and a number, from cell `j` on.
fn write_pair(lists: &[u32], j: usize, w: &mut Writer) -> Listed
    ensures { Lists (pair lists.now j) w.old w.new result }
{
    w.write_byte(b'(');
    write_token(token_at(lists, j), w)?;
    write_next_number(cell(lists, j, 3) as usize, w);
    w.write_byte(b')');
    Ok(())
}

fn write_pairs(lists: &[u32], run: Run, w: &mut Writer) -> Listed
    ensures { Lists (pairs lists.now run) w.old w.new result }
{
    write_list(lists, Sort::Params, run, w, |j, w| write_pair(lists, j, w))
}

// A case of a match, `((token condition) body)`.
fn write_branch(lists: &[u32], j: usize, w: &mut Writer) -> Listed
    requires { j + 4 < 18446744073709551616 }
    ensures { Lists (branch lists.now j) w.old w.new result }
{
    w.write_byte(b'(');
    write_pair(lists, j, w)?;
    w.write_byte(b' ');
    write_ids(lists, run_at(lists, j + 4), w)?;
    w.write_byte(b')');
    Ok(())
}

// A fn of an extern, `(docs name arguments type)`.
fn write_extern_fn(lists: &[u32], j: usize, w: &mut Writer) -> Listed
    requires { j + 5 < 18446744073709551616 }
    ensures { Lists (extern_fn lists.now j) w.old w.new result }
{
    w.write_byte(b'(');
    write_tokens(lists, run_at(lists, j), w)?;
    w.write_byte(b' ');
    write_token(token_at(lists, j + 2), w)?;
    w.write_byte(b' ');
    write_pairs(lists, run_at(lists, j + 5), w)?;
    write_next_number(cell(lists, j, 7) as usize, w);
    w.write_byte(b')');
    Ok(())
}

// What a form has behind its name.
#[derive(Clone, Copy)]
pub(crate) enum Field {
    Number(u32),
    Token(Token),
    Tokens(Run),
    Ids(Run),
    Pairs(Run),
    Branches(Run),
    ExternFns(Run),
    Default(Token, Run), // a token and the body behind it
}

fn write_field(lists: &[u32], field: Field, w: &mut Writer) -> Listed
    ensures { Lists (field_text lists.now field) w.old w.new result }
{
    match field {
        Field::Number(n) => {
            w.write_number(n as usize);
            Ok(())
        }
        Field::Token(t) => write_token(t, w),
        Field::Tokens(run) => write_tokens(lists, run, w),
        Field::Ids(run) => write_ids(lists, run, w),
        Field::Pairs(run) => write_pairs(lists, run, w),
        Field::Branches(run) => {
            write_list(lists, Sort::Cases, run, w, |j, w| write_branch(lists, j, w))
        }
        Field::ExternFns(run) => {
            write_list(
                lists,
                Sort::Fns,
                run,
                w,
                |j, w| write_extern_fn(lists, j, w),
            )
        }
        Field::Default(t, body) => write_default(lists, t, body, w),
    }
}

// The token and the body of a match's default.
fn write_default(lists: &[u32], t: Token, body: Run, w: &mut Writer) -> Listed
    ensures { Lists (tuple (token t) (ids lists.now body ∷ [])) w.old w.new result }
{
    w.write_byte(b'(');
    write_token(t, w)?;
    w.write_byte(b' ');
    write_ids(lists, body, w)?;
    w.write_byte(b')');
    Ok(())
}

// `(name field field ..)`.
pub(crate) fn write_form(lists: &[u32], name: &[u8], fields: &[Field], w: &mut Writer) -> Listed
    ensures { let texts = map (field_text lists.now) fields.now in
        Lists (form name.now texts) w.old w.new result }
{
    w.write_byte(b'(');
    w.write_text(name);
    for field in fields {
        w.write_byte(b' ');
        write_field(lists, *field, w)?;
    }
    w.write_byte(b')');
    Ok(())
}
