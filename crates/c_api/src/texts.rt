// Calls that write a text into a lent buffer.
ghost use Rattle.text.specs.Answer.{answer_of};
ghost use Rattle.c_api.specs.Texts.{AnswersLength};

use crate::cells::{length_cells, put};
use text::Writing;

// The text's length.
pub(crate) fn put_length(length: &mut [u64; 1], answer: Writing) -> u32
    ensures { let due = answer_of answer in
        AnswersLength due result length.old length.new }
{
    put(length, answer.map(length_cells))
}
