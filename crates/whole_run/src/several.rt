// Several replies from a record on: the list is prepared once, and the row is checked before its first reply is taken.
ghost use Rattle.std.specs.Prelude.{◌≡◌, ◌↔◌, IfOk, IsNone, IsTrue, OnErr, length};
ghost use Rattle.walk.specs.Admission.{ready};
ghost use Rattle.walk.specs.model.Sums.{plan_by};
ghost use Rattle.reply.specs.Effect.{state_of};
ghost use Rattle.calls.specs.Calls.{steps_prepared, steps_of, Steps};
ghost use Rattle.step.specs.model.Onward.{PreparedFor};

use crate::run_replies;
use base::{Fault, Refused};
use calls::Stepped;
use reply::Record;
use row::read_row;
use walk::Planned;

// The steps of an admitted list, as its preparation left it: 24, 23, 22, or the row's replies taken.
fn steps_planned(
    list: &[u8],
    table: &[u16],
    plan: Planned,
    r: Record,
    incoming: &mut [u8],
    outgoing: &[u8],
    row: &[u8],
) -> Result<Stepped, Refused>
    requires { PreparedFor list.now table.now plan.sizes plan.counts (length incoming.old) (length outgoing.now) }
    ensures steps { Steps (steps_prepared (ready (plan_by list.now plan.sizes)) list.now row.now (state_of r incoming.old outgoing.now))
        r result incoming.new outgoing.now }
    ensures ended { IfOk result (λ y. IsNone y.wanted ↔ IsTrue y.run.ended) }
    ensures refused { OnErr result (incoming.new ≡ incoming.old) }
{
    if r.ended {
        return Err(Fault::RunEnded.into());
    }
    step::record_fits(list, table, plan, r).ok_or(Fault::RecordUnfit)?;
    let answers = read_row(row).ok_or(Fault::ReplyNotFormed)?;
    let last = run_replies(list, table, plan.sizes, r, incoming, row, answers);
    Ok(Stepped {
        run: last.run,
        taken: last.taken,
        wanted: step::wanted_at(list, table, last.run, outgoing),
    })
}

// The replies of a row, taken by a run that waits, up to its end or until they run out. A refused call leaves the record `r` and the buffers as they
// were.
pub fn steps(
    list: &[u8],
    r: Record,
    incoming: &mut [u8],
    outgoing: &[u8],
    row: &[u8],
) -> Result<Stepped, Refused>
    ensures steps { Steps (steps_of list.now (state_of r incoming.old outgoing.now) row.now)
        r result incoming.new outgoing.now }
    ensures ended { IfOk result (λ y. IsNone y.wanted ↔ IsTrue y.run.ended) }
    ensures refused { OnErr result (incoming.new ≡ incoming.old) }
{
    // On the stack: the engine asks for no memory.
    let mut table = [0u16; 4096];
    let plan = walk::prepare(list, &mut table, incoming.len(), outgoing.len())?;
    steps_planned(list, &table, plan, r, incoming, outgoing, row)
}
