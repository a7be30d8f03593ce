// Whether a record fits an instruction of the walk. What a record holds is bounded in contracts: C hands records in.
ghost use Rattle.std.specs.Prelude.{◌≡◌, ◌+◌, ◌^◌, ◌≤◌, leb};
ghost use Rattle.camac.specs.Words.{words_of};
ghost use Rattle.packing.specs.model.Marks.{MarksTo};
ghost use Rattle.walk.specs.Walk.{moved_words};
ghost use Rattle.calls.specs.Fit.{mark_fits, marks_fit, note_fits, fits_at};
ghost use Rattle.calls.specs.model.Bounds.{Bounded, fits_command, fits_walk};

use camac::{Command, Direction};
use packing::Marks;
use reply::{Note, Record};

// The marks after some words. A block has at most 65,536 words, and admission's marks are even and below 2^60.
#[tactic(auto, using(crate::proofs::FitCases::words_incoming, crate::proofs::FitCases::words_outgoing, crate::proofs::FitCases::words_neither))]
pub fn moved_words(words: u64, c: Command, m: Marks) -> Marks
    requires { (words ≤ 2 ^ 16) × MarksTo (2 ^ 60) m }
    ensures { result ≡ moved_words words c m }
{
    match camac::direction_of(c.transfer) {
        Direction::Incoming => Marks {
            incoming: packing::mark_after_words(c.wide, words, m.incoming as u64) as usize,
            ..m
        },
        Direction::Outgoing => Marks {
            outgoing: packing::mark_after_words(c.wide, words, m.outgoing as u64) as usize,
            ..m
        },
        Direction::Neither => m,
    }
}

// Whether a mark may be a record's where the walk's is `old`.
fn mark_fits(mark: usize, old: usize) -> bool
    ensures { result ≡ mark_fits mark old }
{
    mark % 2 == 0 && mark <= old
}

// Whether a record's marks are even and at most the walk's with the moved words. Words and marks are an admitted list's; no more words are left than
// the instruction has.
#[tactic(auto, unfolding(crate::specs::Fit::marks_fit))]
fn marks_fit(c: Command, m: Marks, r: Record) -> bool
    requires { (words_of c.transfer ≤ 2 ^ 16) × (MarksTo (2 ^ 60) m × (r.left ≤ words_of c.transfer)) }
    ensures { result ≡ marks_fit c m r }
{
    let words = camac::words_of(c.transfer) - r.left as u64;
    let there = moved_words(words, c, m);
    mark_fits(r.marks.incoming, there.incoming) && mark_fits(r.marks.outgoing, there.outgoing)
}

// Whether size bytes from an offset end by `end`; their sum may not fit.
pub(crate) fn is_within(offset: usize, size: usize, end: usize) -> bool
    ensures { result ≡ leb (offset + size) end }
{
    offset.checked_add(size).is_some_and(|behind| behind <= end)
}

#[tactic(auto, unfolding(crate::specs::Fit::note_fits))]
fn note_fits(note: Note, m: Marks) -> bool
    ensures { result ≡ note_fits note m }
{
    let zeros = note
        == Note {
            buffer: 0,
            offset: 0,
            size: 0,
        };
    let word = note.size == 2 || note.size == 4;
    let read = note.buffer == 0 && is_within(note.offset, note.size, m.incoming);
    let written = note.buffer == 1 && is_within(note.offset, note.size, m.outgoing);
    zeros || word && (read || written)
}

// Whether a record by itself fits an instruction.
#[tactic(auto, unfolding(crate::specs::model::Bounds::fits_command))]
fn fits_command(limit: usize, c: Command, r: Record) -> bool
    ensures { result ≡ fits_command limit c r }
{
    let q = camac::qmode_of(c.transfer);
    let left = r.left as u64;
    !r.ended
        && 1 <= left
        && left <= camac::words_of(c.transfer)
        && qmodes::tries_fit(limit, q, r.tries)
        && qmodes::position_fits(q, camac::position_of(c.transfer), r.position)
        && r.status & reply::WAITING_BITS == r.status
        && note_fits(r.note, r.marks)
}

// Whether the marks and operations of a record that fits an instruction are those of the walk.
#[tactic(auto, unfolding(crate::specs::model::Bounds::fits_walk))]
fn fits_walk(limit: usize, worst: u64, c: Command, m: Marks, rest: u64, r: Record) -> bool
    requires { Bounded limit c m rest × (r.left ≤ words_of c.transfer) }
    ensures { result ≡ fits_walk limit worst c m rest r }
{
    let q = camac::qmode_of(c.transfer);
    let most = qmodes::most_left(limit, q, r.position, r.left, r.tries, rest);
    marks_fit(c, m, r) && is_within(r.operations as usize, most as usize, worst as usize)
}

// Whether a record fits at an instruction of the walk. R, the words, the marks and the sum after are an admitted list's.
#[tactic(auto, using(crate::proofs::FitCases::fit_parts, crate::proofs::FitCases::command_words))]
pub fn fits_at(limit: usize, worst: u64, c: Command, m: Marks, rest: u64, r: Record) -> bool
    requires { Bounded limit c m rest }
    ensures { result ≡ fits_at limit worst c m rest r }
{
    fits_command(limit, c, r) && fits_walk(limit, worst, c, m, rest, r)
}
