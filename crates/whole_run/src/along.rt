// On along the walk and over the answers, with no record made before the run stops.
ghost use Rattle.std.specs.Prelude.{◌≡◌, true, false, ℕ, ◌*◌, ◌^◌, ◌<◌, ◌≤◌, length};
ghost use Rattle.camac.specs.Words.{command_in, words_of};
ghost use Rattle.camac.specs.model.Bits.{Passes};
ghost use Rattle.walk.specs.Walk.{moved_by};
ghost use Rattle.walk.specs.model.Sums.{plan_by};
ghost use Rattle.whole_run.specs.model.Row.{Grounds, Stage, Moves};
ghost use Rattle.row.specs.model.Words.{FormedFrom, Answered};
ghost use Rattle.answers.specs.model.Visit.{place_of, record_at};
ghost use Rattle.whole_run.specs.model.Along.{Ahead, Tabled, Reaches, arrived, stay_of};

use answers::{Stay, visit};
use calls::Ran;
use camac::Direction;
use listfile::Sizes;
use packing::Marks;
use qmodes::ScanPosition;
use reply::Record;
use row::{TopBits, gathered};
use walk::Spot;

// Tags of an admitted list, as bytes: a CAMAC instruction's is below these, and one that is neither is a literal's, so that one test finds the
// commonest field.
const JUMP: u8 = 0x20;

const HALT: u8 = 0x2F;

// A CAMAC instruction by its first longword, and the words it wants.
#[derive(Clone, Copy, Debug, PartialEq, Eq)]
pub struct Opening {
    pub first: u32,
    pub words: usize,
}

// Where a run comes to along the walk: a CAMAC instruction, or the halt.
#[derive(Clone, Copy, Debug, PartialEq, Eq)]
pub struct Reached {
    pub spot: Spot,
    pub marks: Marks,
    pub command: Option<Opening>,
}

// The marks after a literal. reply:moved_marks would ask of both marks what is needed of one.
fn after_literal(m: Marks) -> Marks
    requires { m.incoming < 2 ^ 63 }
    ensures { result ≡ moved_by Direction.Incoming true m }
{
    Marks {
        incoming: packing::mark_after(true, m.incoming),
        ..m
    }
}

// On along the walk from a spot over jumps and literals. The walk from there halts, and its bytes have room.
fn reach(
    list: &[u8],
    table: &[u16],
    count: usize,
    from: Spot,
    first: Marks,
    incoming: &mut [u8],
) -> Reached
    requires { Tabled list.now table.now count × Ahead list.now count from first incoming.old }
    ensures { Reaches list.now table.now count from first incoming.old result incoming.new }
{
    let mut at = from;
    let mut marks = first;
    loop {
        let place = usize::from(table[at.instruction]);
        let byte = list[place];
        if byte < JUMP {
            let longword = listfile::first_at(list, place);
            let opening = Opening {
                first: longword,
                words: listfile::words_at(list, place, longword) as usize,
            };
            return Reached {
                spot: at,
                marks,
                command: Some(opening),
            };
        }
        if byte == HALT {
            return Reached {
                spot: at,
                marks,
                command: None,
            };
        }
        if byte == JUMP {
            at = walk::jump_to(listfile::target_at(list, place), at);
        } else {
            packing::store(
                incoming,
                marks.incoming,
                true,
                base::whole_at(list, place + 3),
            );
            marks = after_literal(marks);
            at = walk::spot_after(at);
        }
    }
}

// A position as one number. The one of qmodes is its own, in 32 bits.
fn place_of(p: ScanPosition) -> usize
    ensures { result ≡ place_of p }
{
    usize::from(p.station) * 16 + usize::from(p.subaddress)
}

fn arrive(opening: Opening, marks: Marks, here: Stay) -> Stay
    requires { Passes opening.first }
    ensures { (second : ℕ) → opening.words ≡ words_of (command_in opening.first second).transfer
        → result ≡ arrived (command_in opening.first second) marks here }
{
    Stay {
        left: opening.words,
        tries: 0,
        position: camac::place_in(opening.first),
        marks,
        ..here
    }
}

#[tactic(auto, unfolding(crate::specs::model::Along::stay_of))]
fn stay_of(r: Record, taken: usize) -> Stay
    ensures { result ≡ stay_of r taken }
{
    Stay {
        taken,
        left: r.left,
        tries: r.tries,
        position: place_of(r.position),
        marks: r.marks,
        note: r.note,
    }
}

// The record of a stay at a spot, by the record before reply number `from` of the row.
#[tactic(auto, unfolding(answers::specs::model::Visit::record_at))]
fn record_of(before: Record, from: usize, spot: Spot, stay: Stay, row: &[u8]) -> Record
    requires { (from ≤ stay.taken) × ((stay.taken * 8 ≤ length row.now) × ((before.operations ≤ 2 ^ 60) × (stay.position < 4096))) }
    ensures { result ≡ record_at before row.now from spot stay }
{
    Record {
        ended: false,
        spot,
        left: stay.left,
        tries: stay.tries,
        position: ScanPosition {
            // A position is below 4,096: no bits are lost.
            station: (stay.position / 16) as u8,
            subaddress: (stay.position % 16) as u8,
        },
        marks: stay.marks,
        operations: before.operations + (stay.taken - from) as u64,
        status: before.status | gathered(row, from, stay.taken),
        note: stay.note,
    }
}

// On over words and waits and along the walk, from a record that waits at an instruction for reply number `from` of the row, to a reply that is
// neither, to the end of the answers or to the halt.
pub(crate) fn run_answers(
    list: &[u8],
    table: &[u16],
    sizes: Sizes,
    r: Record,
    from: usize,
    incoming: &mut [u8],
    row: &[u8],
    answers: usize,
    tops: &TopBits,
) -> Ran
    requires { Grounds list.now table.now sizes (length incoming.old) × ((FormedFrom row.now (from * 8) × (Stage (plan_by list.now sizes) r × (r.ended ≡ false)))
        × Answered row.now answers) }
    ensures { Moves (plan_by list.now sizes) row.now r (from * 8) incoming.old result.run (result.taken * 8) incoming.new × (from ≤ result.taken) }
{
    let mut spot = r.spot;
    let mut longword = listfile::first_at(list, usize::from(table[spot.instruction]));
    let mut here = stay_of(r, from);
    loop {
        here = visit(longword, sizes.limit, here, incoming, row, answers, tops);
        let taken = here.taken;
        if here.left != 0 {
            let run = record_of(r, from, spot, here, row);
            return Ran { run, taken };
        }
        let next = reach(
            list,
            table,
            sizes.count,
            walk::spot_after(spot),
            here.marks,
            incoming,
        );
        let Some(opening) = next.command else {
            let stay = Stay {
                position: 0,
                marks: next.marks,
                ..here
            };
            let last = record_of(r, from, next.spot, stay, row);
            let run = reply::ended_at(next.spot, 0, last);
            return Ran { run, taken };
        };
        spot = next.spot;
        longword = opening.first;
        here = arrive(opening, next.marks, here);
    }
}
