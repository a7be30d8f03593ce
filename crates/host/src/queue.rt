// The entry points of demands. The queue is lent, and each call answers how many wait in it.
ghost use Rattle.std.specs.Prelude.{◌≡◌};
ghost use Rattle.demands.specs.Demands.{demand_of, add_of, row_of, take_of, clear_of};
ghost use Rattle.host.specs.Numbers.{queued_numbers, taken_numbers};

use crate::numbers::{queued_numbers, taken_numbers};
use demands::Demand;

#[unsafe(no_mangle)]
pub extern "C" fn camlist_demand_add_v2(
    queue: &mut [u8],
    crate_number: u8,
    sgl: u8,
    answer: &mut [u64; 4],
)
    ensures answer { answer.new ≡ queued_numbers (add_of queue.old (demand_of crate_number sgl)).queued }
    ensures queue { queue.new ≡ (add_of queue.old (demand_of crate_number sgl)).queue }
{
    *answer = queued_numbers(demands::add(queue, Demand { crate_number, sgl }));
}

#[unsafe(no_mangle)]
pub extern "C" fn camlist_demand_row_v2(queue: &mut [u8], row: &[u8], answer: &mut [u64; 4])
    ensures answer { answer.new ≡ queued_numbers (row_of queue.old row.now).queued }
    ensures queue { queue.new ≡ (row_of queue.old row.now).queue }
{
    *answer = queued_numbers(demands::add_row(queue, row));
}

#[unsafe(no_mangle)]
pub extern "C" fn camlist_demand_take_v2(queue: &mut [u8], answer: &mut [u64; 7])
    ensures answer { answer.new ≡ taken_numbers (take_of queue.old).queued (take_of queue.old).next }
    ensures queue { queue.new ≡ (take_of queue.old).queue }
{
    *answer = taken_numbers(demands::take(queue));
}

#[unsafe(no_mangle)]
pub extern "C" fn camlist_demand_clear_v2(queue: &mut [u8], answer: &mut [u64; 4])
    ensures answer { answer.new ≡ queued_numbers (clear_of queue.old).queued }
    ensures queue { queue.new ≡ (clear_of queue.old).queue }
{
    *answer = queued_numbers(demands::clear(queue));
}
