// The calls: start and step.
#![tactic(auto)]

pub mod along;
pub mod place;

ghost use Rattle.std.specs.Prelude.{◌≡◌, ◌↔◌, IfOk, IsNone, IsTrue, OnErr, length};
ghost use Rattle.calls.specs.Calls.{operation_or_none, refused_record, start_of, step_prepared, step_of, Yields};
ghost use Rattle.walk.specs.Admission.{ready};
ghost use Rattle.walk.specs.model.Sums.{plan_by};
ghost use Rattle.reply.specs.Effect.{state_of};
ghost use Rattle.step.specs.model.Onward.{PreparedFor, Askable, Waiting, wanted_by};
ghost use Rattle.step.specs.InPlace.{Leaves};

pub use along::{Arrival, resume, run_on, wanted_at};
use base::{Fault, Refused};
use calls::{Operation, Yield};
pub use place::{Met, record_fits};
use reply::Record;
use walk::Planned;

// A call that is not refused, with such a record.
fn yield_of(list: &[u8], table: &[u16], last: Record, outgoing: &[u8]) -> Yield
    requires { Askable table.now last × Waiting list.now table.now last }
    ensures run { result.run ≡ last }
    ensures wanted { operation_or_none result.wanted ≡ wanted_by list.now table.now last outgoing.now }
    ensures ended { IsNone result.wanted ↔ IsTrue last.ended }
{
    Yield {
        run: last,
        wanted: wanted_at(list, table, last, outgoing),
    }
}

// Starts a run: to the first operation or the end.
pub fn start(list: &[u8], incoming: &mut [u8], outgoing: &[u8]) -> Result<Yield, Refused>
    ensures yields { Yields (start_of list.now incoming.old outgoing.now) refused_record result incoming.new outgoing.now }
    ensures ended { IfOk result (λ y. IsNone y.wanted ↔ IsTrue y.run.ended) }
    ensures refused { OnErr result (incoming.new ≡ incoming.old) }
{
    // On the stack: the engine asks for no memory.
    let mut table = [0u16; 4096];
    let plan = walk::prepare(list, &mut table, incoming.len(), outgoing.len())?;
    let first = run_on(
        list,
        &table,
        plan.sizes.count,
        walk::first_spot(),
        reply::zero_record(false),
        incoming,
    );
    Ok(yield_of(list, &table, first.run, outgoing))
}

// A step of an admitted list, as its preparation left it: 24, 23, 22, or the reply taken.
fn step_planned(
    list: &[u8],
    table: &[u16],
    plan: Planned,
    r: Record,
    incoming: &mut [u8],
    outgoing: &[u8],
    reply: &[u8],
) -> Result<Yield, Refused>
    requires { PreparedFor list.now table.now plan.sizes plan.counts (length incoming.old) (length outgoing.now) }
    ensures yields { Yields (step_prepared (ready (plan_by list.now plan.sizes)) reply.now (state_of r incoming.old outgoing.now))
        r result incoming.new outgoing.now }
    ensures ended { IfOk result (λ y. IsNone y.wanted ↔ IsTrue y.run.ended) }
    ensures refused { OnErr result (incoming.new ≡ incoming.old) }
{
    if r.ended {
        return Err(Fault::RunEnded.into());
    }
    let command = record_fits(list, table, plan, r).ok_or(Fault::RecordUnfit)?;
    let answer = reply::reply_of(reply).ok_or(Fault::ReplyNotFormed)?;
    let taken = take::take_here(plan.sizes.limit, command, answer, r, incoming);
    let next = resume(list, table, plan.sizes.count, taken, incoming);
    Ok(yield_of(list, table, next, outgoing))
}

// One reply, taken by a run that waits. A refused step leaves the record `r` and the buffers as they were.
pub fn step(
    list: &[u8],
    r: Record,
    incoming: &mut [u8],
    outgoing: &[u8],
    reply: &[u8],
) -> Result<Yield, Refused>
    ensures yields { Yields (step_of list.now (state_of r incoming.old outgoing.now) reply.now)
        r result incoming.new outgoing.now }
    ensures ended { IfOk result (λ y. IsNone y.wanted ↔ IsTrue y.run.ended) }
    ensures refused { OnErr result (incoming.new ≡ incoming.old) }
{
    // On the stack: the engine asks for no memory.
    let mut table = [0u16; 4096];
    let plan = walk::prepare(list, &mut table, incoming.len(), outgoing.len())?;
    step_planned(list, &table, plan, r, incoming, outgoing, reply)
}

// The same with the record lent: it holds the new state afterwards, and stays as it was where the step is refused.
pub fn step_in_place(
    list: &[u8],
    record: &mut Record,
    incoming: &mut [u8],
    outgoing: &[u8],
    reply: &[u8],
) -> Result<Option<Operation>, Refused>
    ensures leaves { Leaves (step_of list.now (state_of «record».old incoming.old outgoing.now) reply.now)
        result «record».new incoming.new outgoing.now }
    ensures ended { IfOk result (λ wanted. IsNone wanted ↔ IsTrue «record».new.ended) }
    ensures refused { OnErr result ((«record».new ≡ «record».old) × (incoming.new ≡ incoming.old)) }
{
    let y = step(list, *record, incoming, outgoing, reply)?;
    *record = y.run;
    Ok(y.wanted)
}
