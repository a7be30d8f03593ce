// The whole run over a row of replies: the row is read once, words and waits are passed along the walk by one loop, and every other reply goes
// through the function that a step uses. List, table and sizes go side by side, as listfile:check_list says.
#![tactic(auto)]

pub mod along;
pub mod several;

ghost use Rattle.std.specs.Prelude.{◌≡◌, true, false, List, ℕ, ◌+◌, ◌*◌, ◌^◌, ◌<◌, ◌≤◌, OnErr, length};
ghost use Rattle.walk.specs.model.Sums.{plan_by};
ghost use Rattle.reply.specs.Effect.{state_of};
ghost use Rattle.calls.specs.Calls.{run_of, Runs};
ghost use Rattle.whole_run.specs.model.Row.{row_from, stopped_at, Grounds, Stage, Moves};
ghost use Rattle.row.specs.model.Words.{FormedFrom, Answered};

use crate::along::run_answers;
pub use along::{Opening, Reached};
use base::{Fault, Refused};
use calls::Ran;
use listfile::{Instruction, Sizes};
use reply::Record;
use row::{read_row, top_bits};
pub use several::steps;

// The reply at a place of the row, by the function that a step uses, and on along the walk where its last word is through.
fn take_other(
    list: &[u8],
    table: &[u16],
    sizes: Sizes,
    r: Record,
    incoming: &mut [u8],
    row: &[u8],
    at: usize,
) -> Record
    requires { Grounds list.now table.now sizes (length incoming.old) × ((FormedFrom row.now at × (at < length row.now))
        × (Stage (plan_by list.now sizes) r × (r.ended ≡ false))) }
    ensures { Moves (plan_by list.now sizes) row.now r at incoming.old result (at + 8) incoming.new }
{
    let Instruction::Camac(c) = listfile::instruction_at(list, table[r.spot.instruction]) else {
        unreachable!();
    };
    let reply = reply::reply_at(row, at);
    let taken = take::take_here(sizes.limit, c, reply, r, incoming);
    step::resume(list, table, sizes.count, taken, incoming)
}

// The replies of a row, up to the end of the run; the first `answers` of them are answers.
fn run_replies(
    list: &[u8],
    table: &[u16],
    sizes: Sizes,
    first: Record,
    incoming: &mut [u8],
    row: &[u8],
    answers: usize,
) -> Ran
    requires { Grounds list.now table.now sizes (length incoming.old) × (Stage (plan_by list.now sizes) first × Answered row.now answers) }
    ensures { (outgoing : List ℕ) → row_from (plan_by list.now sizes) row.now 0 (state_of first incoming.old outgoing)
        ≡ stopped_at (result.taken * 8) (state_of result.run incoming.new outgoing) }
{
    let count = row.len() / 8;
    let tops = top_bits();
    let mut here = first;
    let mut k: usize = 0;
    // Counted by hand: a turn takes as many replies as it finds answers, and one more.
    while k < count {
        if here.ended {
            return Ran {
                run: here,
                taken: k,
            };
        }
        let stop = run_answers(list, table, sizes, here, k, incoming, row, answers, &tops);
        if stop.run.ended || stop.taken == count {
            return stop;
        }
        here = take_other(list, table, sizes, stop.run, incoming, row, stop.taken * 8);
        k = stop.taken + 1;
    }
    Ran {
        run: here,
        taken: k,
    }
}

// The whole run of a list over a row of replies: start and steps, up to the end or until replies run out. A refused run leaves both buffers as they
// were.
pub fn run_row(
    list: &[u8],
    incoming: &mut [u8],
    outgoing: &[u8],
    row: &[u8],
) -> Result<Ran, Refused>
    ensures runs { Runs (run_of list.now incoming.old outgoing.now row.now) result incoming.new outgoing.now }
    ensures refused { OnErr result (incoming.new ≡ incoming.old) }
{
    // On the stack: the engine asks for no memory.
    let mut table = [0u16; 4096];
    let plan = walk::prepare(list, &mut table, incoming.len(), outgoing.len())?;
    let answers = read_row(row).ok_or(Fault::ReplyNotFormed)?;
    let first = step::run_on(
        list,
        &table,
        plan.sizes.count,
        walk::first_spot(),
        reply::zero_record(false),
        incoming,
    );
    Ok(run_replies(list, &table, plan.sizes, first.run, incoming, row, answers))
}
