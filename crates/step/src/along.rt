// On along the walk, and the operation that a record waits for. List, table and count go side by side, as listfile:check_list says.
ghost use Rattle.std.specs.Prelude.{◌≡◌, ◌≤◌, ◌↔◌, ℕ, IsNone, IsTrue, length, get_or, List};
ghost use Rattle.listfile.specs.model.Table.{instruction_at, TableRight};
ghost use Rattle.walk.specs.Walk.{spot_after};
ghost use Rattle.walk.specs.model.Sums.{rest_from};
ghost use Rattle.calls.specs.Calls.{operation_or_none};
ghost use Rattle.reply.specs.Effect.{run_on, state_of};
ghost use Rattle.take.specs.model.Here.{resumed};
ghost use Rattle.step.specs.model.Onward.{Going, record_in, GoingBy, Askable, Waiting, wanted_by};

use calls::Operation;
use listfile::Instruction;
use reply::Record;
use take::{Advance, Taken};
use walk::Spot;

// Where a run comes to along the walk: its record, and the instruction at which it waits or has ended.
#[derive(Clone, Copy, Debug, PartialEq, Eq)]
pub struct Arrival {
    pub run: Record,
    pub instruction: Instruction,
}

// On along the walk from a spot to the first operation or the end. The walk from there halts, and its bytes have room.
pub fn run_on(
    list: &[u8],
    table: &[u16],
    count: usize,
    from: Spot,
    r: Record,
    incoming: &mut [u8],
) -> Arrival
    requires { (count ≤ length table.now) × ((count ≤ 4096) × (TableRight list.now table.now count × Going list.now count from r incoming.old)) }
    ensures { ((out : List ℕ) → state_of result.run incoming.new out ≡ run_on (rest_from list.now count from) (state_of r incoming.old out))
        × (result.instruction ≡ instruction_at list.now (get_or table.now result.run.spot.instruction 0)) }
{
    let mut at = from;
    let mut here = r;
    loop {
        let instruction = listfile::instruction_at(list, table[at.instruction]);
        match take::advance_by(instruction, at, here, incoming) {
            Advance::On(next, run) => {
                at = next;
                here = run;
            }
            Advance::At(run) => return Arrival { run, instruction },
        }
    }
}

// The record after a reply taken, on along the walk where its last word is through. Then the walk from the next instruction halts, and
// its bytes have room.
pub fn resume(list: &[u8], table: &[u16], count: usize, taken: Taken, incoming: &mut [u8]) -> Record
    requires { (count ≤ length table.now) × ((count ≤ 4096) × (TableRight list.now table.now count × GoingBy list.now count taken incoming.old)) }
    ensures { (out : List ℕ) → state_of result incoming.new out ≡ resumed (rest_from list.now count (spot_after (record_in taken).spot)) taken incoming.old out }
{
    match taken {
        Taken::Same(r) | Taken::Ended(r) => r,
        Taken::Through(r) => {
            run_on(list, table, count, walk::spot_after(r.spot), r, incoming).run
        }
    }
}

// The operation that a run's last record waits for; none where the run has ended or stands at no CAMAC instruction. A record that fits an admitted
// list has its instruction in the table, a CAMAC one.
#[tactic(auto, unfolding(crate::specs::model::Onward::wanted_by))]
pub fn wanted_at(list: &[u8], table: &[u16], last: Record, outgoing: &[u8]) -> Option<Operation>
    requires { Askable table.now last }
    ensures wanted { operation_or_none result ≡ wanted_by list.now table.now last outgoing.now }
    ensures ended { Waiting list.now table.now last → (IsNone result ↔ IsTrue last.ended) }
{
    if last.ended {
        return None;
    }
    let Instruction::Camac(c) = listfile::instruction_at(list, table[last.spot.instruction]) else {
        return None;
    };
    Some(calls::operation_of(c, last, outgoing))
}
