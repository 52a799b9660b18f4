// The kinds of the records in a lent array.
ghost use Rattle.std.specs.Prelude.{◌≡◌, ◌≢◌, ◌≤◌, MatchOption};
ghost use Rattle.ast.specs.Layout.{node_width};
ghost use Rattle.compare.specs.Shapes.{kind_at};

use ast::decode::cell;

// The kind of record `i`, `width` cells a record; none where it lies outside or its kind is
// unknown, `known` being the last that is known. A number, as in its cell: kinds are compared
// before a record is read, and an enum of nodes and types would have the numbers beside it.
// The width is a value, and no size of `as_chunks`: one body serves nodes and types.
pub(crate) fn kind_at(records: &[u32], width: usize, known: u32, i: u32) -> Option<u32>
    requires { width ≤ node_width }
    ensures { let kind = kind_at width known records.now i in
        MatchOption result (kind ≡ 0) (λ k. (k ≡ kind) × (k ≢ 0)) }
{
    let at = width * i as usize;
    if records.len() < at + width {
        return None;
    }
    let kind = cell(records, at, 0);
    (1..=known).contains(&kind).then_some(kind)
}
