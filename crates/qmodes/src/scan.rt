// Scan positions.
ghost use Rattle.std.specs.Prelude.{◌≡◌, ◌+◌, ◌*◌};
ghost use Rattle.qmodes.specs.Scan.{stations, positions, after_other, after_done, after_answer};
ghost use Rattle.qmodes.specs.Modes.{done};

#[derive(Clone, Copy, Debug, PartialEq, Eq)]
pub struct ScanPosition {
    pub station: u8,
    pub subaddress: u8,
}

impl ScanPosition {
    // S, the stations left.
    #[tactic(auto, unfolding(crate::specs::Scan::stations))]
    pub fn stations_left(self) -> u64
        ensures { result ≡ stations self }
    {
        24u64.saturating_sub(u64::from(self.station))
    }

    // P, the positions left.
    #[tactic(auto, unfolding(crate::specs::Scan::positions))]
    pub fn positions_left(self) -> u64
        ensures { result ≡ positions self }
    {
        let here_on = 23u64.saturating_sub(u64::from(self.station)) * 16 + 16;
        here_on.saturating_sub(u64::from(self.subaddress))
    }

    // The place among all positions.
    pub(crate) fn place(self) -> u32
        ensures { result ≡ self.station * 16 + self.subaddress }
    {
        u32::from(self.station) * 16 + u32::from(self.subaddress)
    }

    // After any answer that is no done word; None: it ran off station 23. That a scan ends: specs/Ends.
    #[tactic(auto, unfolding(crate::specs::Scan::after_other))]
    pub fn after_other(self) -> Option<ScanPosition>
        ensures { result ≡ after_other self }
    {
        if self.station < 23 {
            return Some(ScanPosition {
                station: self.station + 1,
                subaddress: 0,
            });
        }
        None
    }

    // After a done word. That a scan ends: specs/Ends.
    #[tactic(auto, unfolding(crate::specs::Scan::after_done))]
    pub fn after_done(self) -> Option<ScanPosition>
        ensures { result ≡ after_done self }
    {
        if self.subaddress < 15 {
            return Some(ScanPosition {
                subaddress: self.subaddress + 1,
                ..self
            });
        }
        self.after_other()
    }

    pub fn after_answer(self, done: bool) -> Option<ScanPosition>
        ensures { result ≡ after_answer done self }
    {
        if done {
            self.after_done()
        } else {
            self.after_other()
        }
    }
}
