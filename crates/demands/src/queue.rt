// The queue's bytes: 2,048 cells of a crate number and an SGL byte, then the oldest demand's cell, how many wait, and the overflow mark.
ghost use Rattle.std.specs.Prelude.{◌≡◌, ◌<◌, ◌≤◌, true, ◌%◌, length};
ghost use Rattle.demands.specs.Demands.{first_in, waiting_number, with_waiting, with_mark, is_queue, demands_in, added_to, added_all, taken_from};
ghost use Rattle.demands.specs.model.Answers.{queued_in};

use crate::{Demand, Queued};

// Whether bytes keep the limits of the layout. Cells may hold anything.
pub fn is_queue(bytes: &[u8]) -> bool
    ensures { result ≡ is_queue bytes.now }
{
    if bytes.len() != 4101 {
        return false;
    }
    (base::pair_at(bytes, 4096) < 2048) & (base::pair_at(bytes, 4098) <= 2048) & (bytes[4100] <= 1)
}

// Lent bytes that keep them.
#[derive(Drop)]
pub struct Queue<'a> {
    pub bytes: &'a mut [u8],
    ghost limits: { is_queue bytes.now ≡ true },
}

#[tactic(auto, using(crate::proofs::LayoutLaws::limits))]
impl<'a> Queue<'a> {
    // The cell of the oldest demand.
    fn first(&self) -> usize
        ensures { (result ≡ first_in self.now.bytes.now) × (result < 2048) }
    {
        base::pair_at(self.bytes, 4096)
    }

    // How many wait.
    fn waiting(&self) -> usize
        ensures { (result ≡ waiting_number self.now.bytes.now) × (result ≤ 2048) }
    {
        base::pair_at(self.bytes, 4098)
    }

    pub fn queued(&self) -> Queued
        ensures { result ≡ queued_in self.now.bytes.now }
    {
        Queued {
            waiting: self.waiting(),
            overflow: self.bytes[4100] != 0,
        }
    }

    // Behind those that wait, round behind the last cell; dropped where 2,048 wait.
    #[tactic(auto, using(crate::proofs::LayoutLaws::limits, crate::proofs::CallLaws::added_full))]
    pub fn add(&mut self, demand: Demand)
        ensures same_reference { self.new.bytes.ghost_name ≡ self.old.bytes.ghost_name }
        ensures bytes { self.new.bytes.now ≡ added_to self.old.bytes.now demand }
    {
        let n = self.waiting();
        if n == 2048 {
            self.bytes[4100] = 1;
            return;
        }
        let at = (self.first() + n) % 2048 * 2;
        self.bytes[at] = demand.crate_number;
        self.bytes[at + 1] = demand.sgl;
        // A cell and a count are below 65,536: no bits are lost.
        base::put_short(self.bytes, 4098, n as u32 + 1);
    }

    // The demands of a row, two bytes each.
    pub fn add_row(&mut self, row: &[u8])
        requires { length row.now % 2 ≡ 0 }
        ensures same_reference { self.new.bytes.ghost_name ≡ self.old.bytes.ghost_name }
        ensures bytes { self.new.bytes.now ≡ added_all self.old.bytes.now (demands_in row.now) }
    {
        let (demands, _) = row.as_chunks::<2>();
        for &[crate_number, sgl] in demands {
            self.add(Demand { crate_number, sgl });
        }
    }

    // The oldest demand out. The cell after it is the oldest's then, round behind the last cell.
    pub fn take(&mut self) -> Option<Demand>
        ensures same_reference { self.new.bytes.ghost_name ≡ self.old.bytes.ghost_name }
        ensures next { result ≡ (taken_from self.old.bytes.now).next }
        ensures bytes { self.new.bytes.now ≡ (taken_from self.old.bytes.now).queue }
    {
        let n = self.waiting();
        if n == 0 {
            return None;
        }
        let at = self.first();
        let oldest = Demand {
            crate_number: self.bytes[at * 2],
            sgl: self.bytes[at * 2 + 1],
        };
        // The same here.
        base::put_short(self.bytes, 4098, n as u32 - 1);
        base::put_short(self.bytes, 4096, (at as u32 + 1) % 2048);
        Some(oldest)
    }

    // None waits, and the overflow mark is off.
    pub fn clear(&mut self)
        ensures same_reference { self.new.bytes.ghost_name ≡ self.old.bytes.ghost_name }
        ensures bytes { self.new.bytes.now ≡ with_waiting 0 (with_mark 0 self.old.bytes.now) }
    {
        self.bytes[4100] = 0;
        base::put_short(self.bytes, 4098, 0);
    }
}
