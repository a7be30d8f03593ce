// The record of a run, and what changes in it.
ghost use Rattle.std.specs.Prelude.{◌≡◌, ◌^◌, ◌<◌, ◌≤◌};
ghost use Rattle.walk.specs.Walk.{moved_by};
ghost use Rattle.reply.specs.Effect.{ended_at, waits_for, with_marks, note_after, moved_record, counted, waiting, zero_record};

use crate::replies::Reply;
use crate::status::{CODE, ENDED, flags_of};
use camac::{Command, Direction};
use packing::Marks;
use qmodes::ScanPosition;
use walk::Spot;

// The last word moved: its buffer (0 incoming, 1 outgoing), offset and length; zeros before any. C hands a record in, where the buffer may be
// any number.
#[derive(Clone, Copy, Debug, PartialEq, Eq)]
pub struct Note {
    pub buffer: u8,
    pub offset: usize,
    pub size: usize,
}

// A run's record: ended, instruction (its spot), words left, tries made, current N and A, both marks, operations, status, note. The small
// ones stand last, so that a copy has no gaps. `ended` is a flag, since C hands records in where it stands beside any numbers.
#[derive(Clone, Copy, Debug, PartialEq, Eq)]
pub struct Record {
    pub spot: Spot,
    pub left: usize,
    pub tries: usize,
    pub marks: Marks,
    pub operations: u64,
    pub note: Note,
    pub position: ScanPosition,
    pub ended: bool,
    pub status: u32,
}

// All zero but for `ended`.
pub fn zero_record(ended: bool) -> Record
    ensures { result ≡ zero_record ended }
{
    Record {
        ended,
        spot: walk::first_spot(),
        left: 0,
        tries: 0,
        position: ScanPosition {
            station: 0,
            subaddress: 0,
        },
        marks: Marks {
            incoming: 0,
            outgoing: 0,
        },
        operations: 0,
        status: 0,
        note: Note {
            buffer: 0,
            offset: 0,
            size: 0,
        },
    }
}

// The record of a run that ended at a spot. A code is a number here, not a cause: this function promises an answer for any up to 13.
#[tactic(auto, unfolding(crate::specs::Effect::ended_at))]
pub fn ended_at(k: Spot, code: u32, r: Record) -> Record
    requires { code ≤ 13 }
    ensures { result ≡ ended_at k code r }
{
    Record {
        ended: true,
        spot: k,
        left: 0,
        tries: 0,
        position: ScanPosition {
            station: 0,
            subaddress: 0,
        },
        status: r.status | (code * CODE + ENDED),
        ..r
    }
}

// The record that waits for the first reply of an instruction.
#[tactic(auto, unfolding(crate::specs::Effect::waits_for))]
pub fn waits_for(k: Spot, c: Command, r: Record) -> Record
    ensures { result ≡ waits_for k c r }
{
    Record {
        ended: false,
        spot: k,
        left: camac::words_of(c.transfer) as usize,
        tries: 0,
        position: camac::position_of(c.transfer),
        ..r
    }
}

// The record that waits on at the same instruction.
#[tactic(auto, unfolding(crate::specs::Effect::waiting))]
pub fn wait_on(left: usize, tries: usize, p: ScanPosition, r: Record) -> Record
    ensures { result ≡ waiting left tries p r }
{
    Record {
        ended: false,
        left,
        tries,
        position: p,
        ..r
    }
}

pub fn with_marks(m: Marks, r: Record) -> Record
    ensures { result ≡ with_marks m r }
{
    Record { marks: m, ..r }
}

// A reply counted. No run makes 2^63 operations: W is below.
#[tactic(auto, unfolding(crate::specs::Effect::counted))]
pub fn counted_record(limit: usize, c: Command, reply: Reply, r: Record) -> Record
    requires { (r.operations < 2 ^ 63) × (r.tries < 2 ^ 16) }
    ensures { result ≡ counted limit c reply r }
{
    let flags = flags_of(limit, c, r, reply);
    Record {
        operations: r.operations + 1,
        status: r.status | flags,
        ..r
    }
}

// The marks after one word. Every mark is below 2^63: it counts bytes of a buffer.
pub fn moved_marks(d: Direction, wide: bool, m: Marks) -> Marks
    requires { (m.incoming < 2 ^ 63) × (m.outgoing < 2 ^ 63) }
    ensures { result ≡ moved_by d wide m }
{
    match d {
        Direction::Incoming => Marks {
            incoming: packing::mark_after(wide, m.incoming),
            ..m
        },
        Direction::Outgoing => Marks {
            outgoing: packing::mark_after(wide, m.outgoing),
            ..m
        },
        Direction::Neither => m,
    }
}

// The note after one word. Every mark is below 2^63: it counts bytes of a buffer.
pub fn note_after(d: Direction, wide: bool, r: Record) -> Note
    requires { (r.marks.incoming < 2 ^ 63) × (r.marks.outgoing < 2 ^ 63) }
    ensures { result ≡ note_after d wide r }
{
    match d {
        Direction::Incoming => Note {
            buffer: 0,
            offset: packing::aligned_mark(wide, r.marks.incoming),
            size: packing::width_of(wide),
        },
        Direction::Outgoing => Note {
            buffer: 1,
            offset: packing::aligned_mark(wide, r.marks.outgoing),
            size: packing::width_of(wide),
        },
        Direction::Neither => r.note,
    }
}

// The record after one word moved. Every mark is below 2^63: it counts bytes of a buffer.
#[tactic(auto, unfolding(crate::specs::Effect::moved_record, walk::specs::Walk::moved))]
pub fn moved_record(c: Command, r: Record) -> Record
    requires { (r.marks.incoming < 2 ^ 63) × (r.marks.outgoing < 2 ^ 63) }
    ensures { result ≡ moved_record c r }
{
    let d = camac::direction_of(c.transfer);
    Record {
        marks: moved_marks(d, c.wide, r.marks),
        note: note_after(d, c.wide, r),
        ..r
    }
}
