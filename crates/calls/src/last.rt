// The last moved word, as a part of the buffer that carried it.
ghost use Rattle.std.specs.Prelude.{◌≡◌};
ghost use Rattle.calls.specs.Calls.{lies_in, last_moved, place_of};

use crate::fit::is_within;
use reply::Note;

// Whether a note is of a word, and of one that lies in this buffer of so many bytes.
#[tactic(auto, unfolding(crate::specs::Calls::lies_in))]
fn lies_in(buffer: u8, end: usize, note: Note) -> bool
    ensures { result ≡ lies_in buffer end note }
{
    1 <= note.size && note.buffer == buffer && is_within(note.offset, note.size, end)
}

// The last moved word, as a part of the buffer that carried it; an empty part of the incoming one if none, or if the note lies outside.
pub fn last_moved<'a>(incoming: &'a [u8], outgoing: &'a [u8], note: Note) -> &'a [u8]
    ensures bytes { result.now ≡ (last_moved note incoming.now outgoing.now).bytes }
    ensures place { result.ref_ptr ≡ place_of (last_moved note incoming.now outgoing.now) incoming.entry.ref_ptr outgoing.entry.ref_ptr }
{
    let offset = note.offset;
    let size = note.size;
    if lies_in(0, incoming.len(), note) {
        return &incoming[offset..offset + size];
    }
    if lies_in(1, outgoing.len(), note) {
        return &outgoing[offset..offset + size];
    }
    &incoming[0..0]
}
