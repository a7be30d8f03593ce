// Answers and records as rows of numbers.
ghost use Rattle.std.specs.Prelude.{◌≡◌, ◌≤◌, ◌∷◌, ◌-◌, replicate};
ghost use Rattle.base.specs.Refusals.{refusal_of, number_of};
ghost use Rattle.calls.specs.Calls.{record_numbers, refused_record, operation_or_none, run_in, taken_in, ran_run, wanted_in, steps_taken, steps_wanted};
ghost use Rattle.walk.specs.Admission.{admitted_by, numbers_of};
ghost use Rattle.demands.specs.Answers.{answer_of, taken_answer_of, next_of};
ghost use Rattle.host.specs.Numbers.{refusal_numbers, queued_numbers, next_numbers, taken_numbers, ran_numbers, wanted_numbers, call_numbers, steps_numbers, is_narrow};
ghost use Rattle.host.specs.model.Given.{record_or, numbers_by};

use base::Refused;
use calls::{Operation, Ran, Stepped, Yield};
use demands::{Demand, Queued, Taken};
use packing::Marks;
use qmodes::ScanPosition;
use reply::{Note, Record};
use walk::{Counts, Spot};

// Number and place of a refusal; zeros where there is none.
pub fn refusal_numbers(outcome: Result<(), Refused>) -> [u64; 2]
    ensures { result ≡ refusal_numbers (refusal_of outcome) }
{
    match outcome {
        Ok(()) => [0, 0],
        Err(r) => [u64::from(r.fault.number()), r.place as u64],
    }
}

// Number and place of a refusal, and zeros in the places behind.
fn refused_numbers<const N: usize>(r: Refused) -> [u64; N]
    requires { 2 ≤ N }
    ensures { result ≡ number_of r.fault ∷ r.place ∷ replicate (N - 2) 0 }
{
    let mut n = [0; N];
    n[0] = u64::from(r.fault.number());
    n[1] = r.place as u64;
    n
}

pub fn queued_numbers(outcome: Result<Queued, Refused>) -> [u64; 4]
    ensures { result ≡ queued_numbers (answer_of outcome) }
{
    match outcome {
        Ok(q) => [0, 0, q.waiting as u64, u64::from(q.overflow)],
        Err(r) => refused_numbers(r),
    }
}

fn next_numbers(next: Option<Demand>) -> [u64; 3]
    ensures { result ≡ next_numbers next }
{
    match next {
        None => [0, 0, 0],
        Some(d) => [1, u64::from(d.crate_number), u64::from(d.sgl)],
    }
}

pub fn taken_numbers(outcome: Result<Taken, Refused>) -> [u64; 7]
    ensures { result ≡ taken_numbers (taken_answer_of outcome) (next_of outcome) }
{
    let n = queued_numbers(outcome.map(|t| t.queued));
    let d = next_numbers(outcome.ok().and_then(|t| t.next));
    [n[0], n[1], n[2], n[3], d[0], d[1], d[2]]
}

pub fn admission_numbers(outcome: Result<Counts, Refused>) -> [u64; 5]
    ensures { result ≡ numbers_of (admitted_by outcome) }
{
    match outcome {
        Ok(c) => [0, 0, c.worst, c.incoming, c.outgoing],
        Err(r) => refused_numbers(r),
    }
}

pub fn record_numbers(run: Record) -> [u64; 13]
    ensures { result ≡ record_numbers run }
{
    [
        u64::from(run.ended),
        run.spot.instruction as u64,
        run.left as u64,
        run.tries as u64,
        u64::from(run.position.station),
        u64::from(run.position.subaddress),
        run.marks.incoming as u64,
        run.marks.outgoing as u64,
        run.operations,
        u64::from(run.status),
        u64::from(run.note.buffer),
        run.note.offset as u64,
        run.note.size as u64,
    ]
}

// The record that a start gives; refused, one marked ended, all else zero.
pub fn first_record(outcome: Result<Yield, Refused>) -> Record
    ensures { result ≡ run_in refused_record outcome }
{
    outcome.map_or(reply::zero_record(true), |y| y.run)
}

// Number, place, the replies taken, and the record; of a refused run the zero record marked ended.
pub fn run_numbers(outcome: Result<Ran, Refused>) -> [u64; 16]
    ensures { result ≡ ran_numbers (refusal_of outcome) (taken_in outcome) (ran_run outcome) }
{
    let (number, place, taken, run) = match outcome {
        Ok(ran) => (0, 0, ran.taken, ran.run),
        Err(r) => (r.fault.number(), r.place, 0, reply::zero_record(true)),
    };
    let n = record_numbers(run);
    [
        u64::from(number),
        place as u64,
        taken as u64,
        n[0],
        n[1],
        n[2],
        n[3],
        n[4],
        n[5],
        n[6],
        n[7],
        n[8],
        n[9],
        n[10],
        n[11],
        n[12],
    ]
}

// The operation wanted; zeros where none is.
fn wanted_numbers(wanted: Option<Operation>) -> [u64; 6]
    ensures { result ≡ wanted_numbers (operation_or_none wanted) }
{
    match wanted {
        None => [0, 0, 0, 0, 0, 0],
        Some(o) => [
            u64::from(o.crate_number),
            u64::from(o.station),
            u64::from(o.subaddress),
            u64::from(o.function),
            u64::from(o.word),
            u64::from(o.enhanced),
        ],
    }
}

pub fn call_numbers(outcome: Result<Yield, Refused>) -> [u64; 8]
    ensures { result ≡ call_numbers (refusal_of outcome) (wanted_in outcome) }
{
    match outcome {
        Ok(y) => {
            let w = wanted_numbers(y.wanted);
            [0, 0, w[0], w[1], w[2], w[3], w[4], w[5]]
        }
        Err(r) => refused_numbers(r),
    }
}

pub fn steps_numbers(outcome: Result<Stepped, Refused>) -> [u64; 9]
    ensures { result ≡ steps_numbers (refusal_of outcome) (steps_taken outcome) (steps_wanted outcome) }
{
    match outcome {
        Ok(y) => {
            let w = wanted_numbers(y.wanted);
            [0, 0, y.taken as u64, w[0], w[1], w[2], w[3], w[4], w[5]]
        }
        Err(r) => refused_numbers(r),
    }
}

// Whether each of a record's numbers fits its part.
pub fn is_narrow(n: [u64; 13]) -> bool
    ensures { result ≡ is_narrow n }
{
    (n[4] <= 0xFF) & (n[5] <= 0xFF) & (n[9] <= 0xFFFF_FFFF) & (n[10] <= 0xFF)
}

// The record of these numbers; where a number is too wide, one that fits no list. The definition's record_in has a None there; here none is needed,
// since a step refuses that record, and only behind what comes before it.
pub fn record_of(n: [u64; 13]) -> Record
    ensures { result ≡ record_or n }
{
    let ended = n[0] != 0;
    if !is_narrow(n) {
        return reply::zero_record(ended);
    }
    // All are narrow here: `as` loses no bits.
    Record {
        ended,
        spot: Spot {
            instruction: n[1] as usize,
        },
        left: n[2] as usize,
        tries: n[3] as usize,
        position: ScanPosition {
            station: n[4] as u8,
            subaddress: n[5] as u8,
        },
        marks: Marks {
            incoming: n[6] as usize,
            outgoing: n[7] as usize,
        },
        operations: n[8],
        status: n[9] as u32,
        note: Note {
            buffer: n[10] as u8,
            offset: n[11] as usize,
            size: n[12] as usize,
        },
    }
}

// A record's numbers after a call: those given where it was refused.
pub fn numbers_after(given: [u64; 13], outcome: Result<Record, Refused>) -> [u64; 13]
    ensures { result ≡ numbers_by given outcome }
{
    match outcome {
        Ok(run) if is_narrow(given) => record_numbers(run),
        _ => given,
    }
}
