// What each Q-mode does: one question a function. specs/Modes is the same page in symbols. The bounds of R, tries, words and positions stand
// in contracts, and not in types of their own: a record that C hands in may hold any numbers until it is seen whether it fits.
ghost use Rattle.std.specs.Prelude.{◌≡◌, ◌+◌, ◌-◌, ◌*◌, ◌^◌, ◌<◌, ◌≤◌, min, leb, if◌then◌else◌};
ghost use Rattle.qmodes.specs.Scan.{stations, positions};
ghost use Rattle.qmodes.specs.Modes.{worst_words, is_scan, done, left_after, leaves, spent, scan_leaves, no_x, no_qin_stop, tries_after, position_after, most_left, tries_fit, same_position, position_fits};
ghost use Rattle.qmodes.specs.model.Answers.{word_flags, wait_flags, can_wait, words_ahead, place_after_words, place_after_wait};

use crate::scan::ScanPosition;

#[derive(Clone, Copy, Debug, PartialEq, Eq)]
pub enum QMode {
    Stop,
    Ignore,
    Repeat,
    Scan,
}

// An answer's flags and data.
#[derive(Clone, Copy, Debug, PartialEq, Eq)]
pub struct Answer {
    pub q: bool,
    pub x: bool,
    pub err: bool,
    pub derr: bool,
    pub tpe: bool,
    pub lpe: bool,
    pub word: u32,
}

pub fn is_scan(q: QMode) -> bool
    ensures { result ≡ is_scan q }
{
    matches!(q, QMode::Scan)
}

pub fn is_done(q: QMode, a: Answer) -> bool
    ensures { result ≡ done q a }
{
    match q {
        QMode::Stop | QMode::Repeat => a.q,
        QMode::Ignore => true,
        QMode::Scan => a.q && a.x,
    }
}

// Whether a scan leaves station 23 with words left.
#[tactic(auto, unfolding(crate::specs::Modes::leaves))]
pub fn is_leaving(a: Answer, p: ScanPosition, left: usize) -> bool
    ensures { result ≡ leaves a p left }
{
    let done = is_done(QMode::Scan, a);
    let words_left = left.saturating_sub(usize::from(done));
    p.after_answer(done).is_none() && words_left != 0
}

pub fn scan_leaves(q: QMode, a: Answer, p: ScanPosition, left: usize) -> bool
    ensures { result ≡ scan_leaves q a p left }
{
    match q {
        QMode::Stop | QMode::Ignore | QMode::Repeat => false,
        QMode::Scan => is_leaving(a, p, left),
    }
}

// Whether this was the last try of a word in repeat. That a repeat ends: specs/Ends. Tries stay below R, and R below 2^16.
pub fn is_spent(limit: usize, q: QMode, a: Answer, tries: usize) -> bool
    requires { tries < 2 ^ 16 }
    ensures { result ≡ spent limit q a tries }
{
    match q {
        QMode::Stop | QMode::Ignore | QMode::Scan => false,
        QMode::Repeat => !a.q && tries + 1 == limit,
    }
}

pub fn has_no_x(q: QMode, ad: bool, a: Answer) -> bool
    ensures { result ≡ no_x q ad a }
{
    match q {
        QMode::Stop | QMode::Ignore | QMode::Repeat => !a.x && !ad,
        QMode::Scan => false,
    }
}

pub fn has_no_q(q: QMode, block: bool, a: Answer) -> bool
    ensures { result ≡ no_qin_stop q block a }
{
    match q {
        QMode::Stop => !a.q && !block,
        QMode::Ignore | QMode::Repeat | QMode::Scan => false,
    }
}

// A waiting instruction has words left.
pub fn left_after(q: QMode, moves: bool, left: usize) -> usize
    requires { 1 ≤ left }
    ensures { result ≡ left_after q moves left }
{
    if moves {
        return left - 1;
    }
    match q {
        QMode::Stop => 0,
        QMode::Ignore | QMode::Repeat | QMode::Scan => left,
    }
}

// Tries stay below R, and R below 2^16.
#[tactic(auto, unfolding(crate::specs::Modes::tries_after))]
pub fn tries_after(q: QMode, moves: bool, tries: usize) -> usize
    requires { tries < 2 ^ 16 }
    ensures { result ≡ tries_after q moves tries }
{
    match q {
        QMode::Stop | QMode::Ignore | QMode::Scan => 0,
        QMode::Repeat => if moves { 0 } else { tries + 1 },
    }
}

#[tactic(auto, unfolding(crate::specs::Modes::position_after))]
pub fn position_after(q: QMode, moves: bool, p: ScanPosition) -> ScanPosition
    ensures { result ≡ position_after q moves p }
{
    match q {
        QMode::Stop | QMode::Ignore | QMode::Repeat => p,
        QMode::Scan => p.after_answer(moves).unwrap_or(p),
    }
}

pub fn tries_fit(limit: usize, q: QMode, tries: usize) -> bool
    ensures { result ≡ tries_fit limit q tries }
{
    match q {
        QMode::Stop | QMode::Ignore | QMode::Scan => tries == 0,
        QMode::Repeat => tries < limit,
    }
}

pub fn position_fits(q: QMode, from: ScanPosition, p: ScanPosition) -> bool
    ensures { result ≡ position_fits q from p }
{
    match q {
        QMode::Stop | QMode::Ignore | QMode::Repeat => p == from,
        QMode::Scan => p.station <= 23 && p.subaddress <= 15 && from.place() <= p.place(),
    }
}

// W of n words. R and n are the list's: below 2^16 and at most 2^32.
#[tactic(auto, unfolding(crate::specs::Modes::worst_words, crate::specs::Scan::stations, crate::specs::Scan::positions))]
pub fn worst_words(limit: u64, q: QMode, p: ScanPosition, words: u64) -> u64
    requires { (limit < 2 ^ 16) × (words ≤ 2 ^ 32) }
    ensures { (result ≡ worst_words limit q p words) × (result ≤ 2 ^ 48) }
{
    match q {
        QMode::Stop | QMode::Ignore => words,
        QMode::Repeat => words * limit,
        QMode::Scan => p
            .positions_left()
            .min(words.saturating_sub(1) + p.stations_left()),
    }
}

// The most a scan can still make, `rest` being the most after it. Words and sum are an admitted list's.
#[tactic(auto, unfolding(crate::specs::Scan::stations, crate::specs::Scan::positions))]
fn most_of_scan(p: ScanPosition, left: u64, rest: u64) -> u64
    requires { (left ≤ 2 ^ 16) × (rest ≤ 2 ^ 60) }
    ensures { result ≡ (if leb left (positions p) then min (positions p) (left - 1 + stations p) + rest else positions p) }
{
    let places = p.positions_left();
    if places < left {
        return places;
    }
    places.min(left.saturating_sub(1) + p.stations_left()) + rest
}

// The most operations still possible. Words, R and the walk's sum are an admitted list's.
#[tactic(auto, unfolding(crate::specs::Modes::most_left))]
pub fn most_left(
    limit: usize,
    q: QMode,
    p: ScanPosition,
    left: usize,
    tries: usize,
    rest: u64,
) -> u64
    requires { (limit < 2 ^ 16) × ((left ≤ 2 ^ 16) × (rest ≤ 2 ^ 60)) }
    ensures { result ≡ most_left limit q p left tries rest }
{
    let words = left as u64;
    match q {
        QMode::Stop | QMode::Ignore => words + rest,
        QMode::Repeat => (words * limit as u64).saturating_sub(tries as u64) + rest,
        QMode::Scan => most_of_scan(p, words, rest),
    }
}

// Many answers at once: by their flags, and with a position as one number, N * 16 + A. A scan's last station begins at FIRST_OF_LAST and
// its last position is LAST.
const FIRST_OF_LAST: usize = 0x170;

const LAST: usize = 0x17F;

// The flags that make an answer a word: of these just Q and X are set.
pub fn word_flags(q: QMode, ad: bool) -> u8
    ensures { result ≡ word_flags q ad }
{
    if ad {
        match q {
            QMode::Stop | QMode::Repeat => 0x01,
            QMode::Ignore => 0x00,
            QMode::Scan => 0x03,
        }
    } else {
        match q {
            QMode::Stop | QMode::Repeat | QMode::Scan => 0x37,
            QMode::Ignore => 0x36,
        }
    }
}

// The flags by which an answer that is no word is no cause: of these just X is set.
pub fn wait_flags(q: QMode, ad: bool) -> u8
    ensures { result ≡ wait_flags q ad }
{
    match q {
        QMode::Stop | QMode::Ignore | QMode::Repeat => if ad { 0x00 } else { 0x36 },
        QMode::Scan => if ad { 0x00 } else { 0x34 },
    }
}

// Whether there is a next try after an answer that is no word. Tries are below R.
pub fn can_wait(q: QMode, limit: usize, tries: usize, position: usize) -> bool
    requires { tries < 2 ^ 16 }
    ensures { result ≡ can_wait q limit tries position }
{
    match q {
        QMode::Stop | QMode::Ignore => false,
        QMode::Repeat => tries + 1 < limit,
        QMode::Scan => position < FIRST_OF_LAST,
    }
}

// How many of the words left can be done one after the other before a scan leaves.
pub fn words_ahead(q: QMode, position: usize, left: usize) -> usize
    requires { q ≡ QMode.Scan → position ≤ 0x17F }
    ensures { result ≡ words_ahead q position left }
{
    match q {
        QMode::Stop | QMode::Ignore | QMode::Repeat => left,
        QMode::Scan => {
            let before = LAST - position;
            if before + 1 < left { before } else { left }
        }
    }
}

// The position behind some words. Both are an admitted list's.
pub fn place_after_words(q: QMode, position: usize, words: usize) -> usize
    requires { (position < 2 ^ 16) × (words < 2 ^ 32) }
    ensures { result ≡ place_after_words q position words }
{
    match q {
        QMode::Stop | QMode::Ignore | QMode::Repeat => position,
        QMode::Scan => position + words,
    }
}

// The position after an answer that is no word.
pub fn place_after_wait(q: QMode, position: usize) -> usize
    requires { position < 2 ^ 16 }
    ensures { result ≡ place_after_wait q position }
{
    match q {
        QMode::Stop | QMode::Ignore | QMode::Repeat => position,
        QMode::Scan => (position / 16 + 1) * 16,
    }
}
