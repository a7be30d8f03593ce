// An instruction of the walk found, and whether a record fits there. List, table and sizes go side by side, as listfile:check_list says.
ghost use Rattle.std.specs.Prelude.{◌≡◌, Some, length};
ghost use Rattle.walk.specs.Admission.{counts_of};
ghost use Rattle.walk.specs.Walk.{first_spot};
ghost use Rattle.walk.specs.model.Sums.{rest_from, plan_by, PlannedRight};
ghost use Rattle.calls.specs.model.Bounds.{Bounded};
ghost use Rattle.step.specs.model.Place.{no_sums, found_at, find_in, marks_in, fits_by, FitsBy};
ghost use Rattle.step.specs.model.Onward.{PlannedFor};

use camac::Command;
use listfile::{Instruction, Sizes};
use packing::Marks;
use reply::Record;
use walk::{Counts, Planned, Spot};

// A CAMAC instruction of the walk, with the sums before it and the worst count after it.
#[derive(Clone, Copy, Debug, PartialEq, Eq)]
pub struct Met {
    pub command: Command,
    pub before: Counts,
    pub after: u64,
}

fn found_at(i: Instruction, before: Counts, after: u64) -> Option<Met>
    ensures { result ≡ found_at i before after }
{
    match i {
        Instruction::Camac(command) => Some(Met {
            command,
            before,
            after,
        }),
        Instruction::Jump(_) | Instruction::Literal(_) | Instruction::Halt => None,
    }
}

// The visit of a spot on an admitted list's walk; none where no CAMAC instruction of the walk is there.
fn find(list: &[u8], table: &[u16], sizes: Sizes, sought: Spot) -> Option<Met>
    requires { (length table.now ≡ 4096) × PlannedRight list.now table.now sizes (counts_of (plan_by list.now sizes)) }
    ensures { result ≡ find_in sizes.limit sought (rest_from list.now sizes.count first_spot) no_sums }
{
    let mut at = walk::first_spot();
    let mut sums = Counts {
        worst: 0,
        incoming: 0,
        outgoing: 0,
    };
    loop {
        let i = listfile::instruction_at(list, table[at.instruction]);
        let turn = walk::turn_of(i, at, sizes.limit as u64, sums)?;
        if at == sought {
            return found_at(i, sums, turn.sums.worst);
        }
        at = turn.next;
        sums = turn.sums;
    }
}

// Whether a record fits at what was found on an admitted list's walk.
fn fits_here(plan: Planned, met: Met, r: Record) -> bool
    requires { Bounded plan.sizes.limit met.command (marks_in met.before) plan.counts.worst }
    ensures { result ≡ fits_by plan.sizes.limit plan.counts.worst (Some met) r }
{
    let worst = plan.counts.worst;
    let marks = Marks {
        incoming: met.before.incoming as usize,
        outgoing: met.before.outgoing as usize,
    };
    let rest = worst.saturating_sub(met.after);
    calls::fits_at(plan.sizes.limit, worst, met.command, marks, rest, r)
}

// The CAMAC instruction of an admitted list at which a record waits; none where the record does not fit.
pub fn record_fits(list: &[u8], table: &[u16], plan: Planned, r: Record) -> Option<Command>
    requires { PlannedFor list.now table.now plan.sizes plan.counts }
    ensures { FitsBy (plan_by list.now plan.sizes) r result }
{
    let met = find(list, table, plan.sizes, r.spot)?;
    fits_here(plan, met, r).then_some(met.command)
}
