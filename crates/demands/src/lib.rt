// Demands kept beside the run: a queue of 2,048 in bytes that the host lends.
#![tactic(auto)]

pub mod queue;
pub mod row;

ghost use Rattle.std.specs.Prelude.{◌≡◌};
ghost use Rattle.demands.specs.Demands.{add_of, row_of, take_of, clear_of};
ghost use Rattle.demands.specs.Answers.{answer_of, taken_answer_of, next_of};

use base::{Fault, Refused};
use queue::{Queue, is_queue};
use row::{is_crate, is_row};

// A crate's look-at-me: any SGL byte.
#[derive(Clone, Copy, Debug, PartialEq, Eq)]
pub struct Demand {
    pub crate_number: u8,
    pub sgl: u8,
}

// How many wait now, and whether one was dropped since the last clear.
#[derive(Clone, Copy, Debug, PartialEq, Eq)]
pub struct Queued {
    pub waiting: usize,
    pub overflow: bool,
}

// The oldest demand, if one waited, and what waits behind it.
#[derive(Clone, Copy, Debug, PartialEq, Eq)]
pub struct Taken {
    pub queued: Queued,
    pub next: Option<Demand>,
}

// One demand; dropped where 2,048 wait. The test stands in each call: a function that gave a Queue or none would say nothing of the bytes where it
// gives none, and its caller gets no proof.
#[tactic(auto, unfolding(crate::specs::Demands::add_of))]
pub fn add(queue: &mut [u8], demand: Demand) -> Result<Queued, Refused>
    ensures answer { answer_of result ≡ (add_of queue.old demand).queued }
    ensures bytes { queue.new ≡ (add_of queue.old demand).queue }
{
    if !is_queue(queue) || !is_crate(demand.crate_number) {
        return Err(Refused::from(Fault::BadDemand));
    }
    let mut queue = Queue { bytes: queue };
    queue.add(demand);
    Ok(queue.queued())
}

// A row of demands, two bytes each; all of them, or none if one is refused.
#[tactic(auto, using(crate::proofs::RowLaws::even_row), unfolding(crate::specs::Demands::row_of))]
pub fn add_row(queue: &mut [u8], row: &[u8]) -> Result<Queued, Refused>
    ensures answer { answer_of result ≡ (row_of queue.old row.now).queued }
    ensures bytes { queue.new ≡ (row_of queue.old row.now).queue }
{
    if !is_queue(queue) || !is_row(row) {
        return Err(Refused::from(Fault::BadDemand));
    }
    let mut queue = Queue { bytes: queue };
    queue.add_row(row);
    Ok(queue.queued())
}

// The oldest demand out.
#[tactic(auto, unfolding(crate::specs::Demands::take_of))]
pub fn take(queue: &mut [u8]) -> Result<Taken, Refused>
    ensures answer { taken_answer_of result ≡ (take_of queue.old).queued }
    ensures next { next_of result ≡ (take_of queue.old).next }
    ensures bytes { queue.new ≡ (take_of queue.old).queue }
{
    if !is_queue(queue) {
        return Err(Refused::from(Fault::BadDemand));
    }
    let mut queue = Queue { bytes: queue };
    let next = queue.take();
    Ok(Taken {
        queued: queue.queued(),
        next,
    })
}

// None waits, and the overflow mark is off.
#[tactic(auto, unfolding(crate::specs::Demands::clear_of))]
pub fn clear(queue: &mut [u8]) -> Result<Queued, Refused>
    ensures answer { answer_of result ≡ (clear_of queue.old).queued }
    ensures bytes { queue.new ≡ (clear_of queue.old).queue }
{
    if !is_queue(queue) {
        return Err(Refused::from(Fault::BadDemand));
    }
    let mut queue = Queue { bytes: queue };
    queue.clear();
    Ok(queue.queued())
}
