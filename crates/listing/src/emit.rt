// What a text of the listing is written by, and what ends a listing.
ghost use Rattle.std.specs.Prelude.{◌++◌, map};
ghost use Rattle.text.specs.Text.{number};
ghost use Rattle.listing.specs.Text.{gap, form};
ghost use Rattle.text.specs.Emit.{Writes};

use text::Writer;

// What cannot be listed: a kind that there is not, a list outside the cells, a tree outside the
// arrays.
#[derive(Clone, Copy)]
pub(crate) struct Malformed;

pub(crate) type Listed = Result<(), Malformed>;

// A number behind something else.
pub(crate) fn write_next_number(n: usize, w: &mut Writer)
    ensures { Writes (gap 1 ++ number n) w.old w.new }
{
    w.write_byte(b' ');
    w.write_number(n);
}

// A form of numbers, as `(nodes 3)`.
pub(crate) fn write_numbers(name: &[u8], numbers: &[u32], w: &mut Writer)
    ensures { Writes (form name.now (map number numbers.now)) w.old w.new }
{
    w.write_byte(b'(');
    w.write_text(name);
    for n in numbers {
        write_next_number(*n as usize, w);
    }
    w.write_byte(b')');
}
