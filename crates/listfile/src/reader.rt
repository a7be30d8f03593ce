// The field reader. Its functions leave the work to those over a list and a place; they are no methods, since the pages name them so.
ghost use Rattle.std.specs.Prelude.{◌≡◌, length, leb};
ghost use Rattle.base.specs.Refusals.{numbered};
ghost use Rattle.listfile.specs.Fields.{place_after, field_of};

use crate::field::{Instruction, field_at, is_past, place_after};
use base::Fault;

// A list and the place of its next field, kept together.
#[derive(Clone, Copy)]
pub struct Reader<'a> {
    pub list: &'a [u8],
    pub at: usize,
}

// A reader at the first field.
pub fn open<'a>(list: &'a [u8]) -> Reader<'a>
    ensures { (result.list ≡ list.entry) × (result.at ≡ 0) }
{
    Reader { list, at: 0 }
}

// The field at the reader, with `count` instructions before it.
pub fn read<'a>(r: Reader<'a>, count: usize) -> Result<Instruction, Fault>
    ensures { numbered result ≡ field_of r.entry.list.now r.entry.at count }
{
    field_at(r.list, r.at, count)
}

// The reader past its field.
pub fn moved<'a>(r: Reader<'a>) -> Reader<'a>
    ensures { (result.list ≡ r.entry.list) × (result.at ≡ place_after r.entry.list.now r.entry.at) }
{
    Reader {
        list: r.list,
        at: place_after(r.list, r.at),
    }
}

// No field is left.
pub fn is_at_end<'a>(r: Reader<'a>) -> bool
    ensures { result ≡ leb (length r.entry.list.now) r.entry.at }
{
    is_past(r.list, r.at)
}

// The field at an offset, by a reader.
pub fn read_at(list: &[u8], at: usize, count: usize) -> Result<Instruction, Fault>
    ensures { numbered result ≡ field_of list.now at count }
{
    read(Reader { list, at }, count)
}
