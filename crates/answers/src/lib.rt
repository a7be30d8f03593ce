// The answers of one instruction: words, which move, and waits. Clean and flagged answers are judged alike, by a mask of flags; position, tries,
// words left, marks and note follow from how many there are.
//
// Buffer, row and table are lent by owners of their own, so that they stay parameters; the row goes on behind its first `answers`.
// A field is read into a variable before a match or a struct: in place, with `..m`, a single takes 40 instructions more.
#![tactic(auto)]

ghost use Rattle.std.specs.Prelude.{◌≡◌, true, false, ◌+◌, ◌*◌, ◌%◌, ◌^◌, ◌<◌, ◌≤◌, eqb, length};
ghost use Rattle.std.specs.Int.Bits.{bit_and};
ghost use Rattle.qmodes.specs.model.Answers.{words_ahead};
ghost use Rattle.camac.specs.model.Bits.{Passes};
ghost use Rattle.packing.specs.Packing.{mark_after_words};
ghost use Rattle.packing.specs.model.Marks.{MarksTo};
ghost use Rattle.row.specs.model.Words.{flags_at};
ghost use Rattle.answers.specs.model.Visit.{rules_in, marks_behind, note_behind, NoteRoom, after_words, bytes_after, waited_with, after_wait, Words, Takes, Waits, Passed, Roomy};

use camac::Direction;
use packing::Marks;
use qmodes::QMode;
use reply::Note;
use row::{TopBits, is_word_at, pass_words, read_word, read_words};

// What an instruction decides for its answers: how its words move, and the flags that make an answer a word or, where it is none, no cause.
#[derive(Clone, Copy, Debug, PartialEq, Eq)]
pub struct Rules {
    pub q: QMode,
    pub direction: Direction,
    pub wide: bool,
    pub word: u8,
    pub ad: bool,
}

// Where a run stands at an instruction: replies taken, words left, tries, position as N * 16 + A, marks and note. No words left: it is
// through. Operations are the replies taken, and status is what their flags gathered.
#[derive(Clone, Copy, Debug, PartialEq, Eq)]
pub struct Stay {
    pub taken: usize,
    pub left: usize,
    pub tries: usize,
    pub position: usize,
    pub marks: Marks,
    pub note: Note,
}

fn rules_in(first: u32) -> Rules
    requires { Passes first }
    ensures { result ≡ rules_in first }
{
    let q = camac::passed_qmode(first);
    let direction = camac::direction_in(first);
    let ad = camac::has_ad(first);
    Rules {
        q,
        direction,
        wide: camac::is_wide(first),
        word: qmodes::word_flags(q, ad),
        ad,
    }
}

// The mark behind some words. Numbers are an admitted list's.
fn mark_behind(wide: bool, words: usize, mark: usize) -> usize
    requires { (words ≤ 65536) × ((mark ≤ 2 ^ 60) × (mark % 2 ≡ 0)) }
    ensures { result ≡ mark_after_words wide words mark }
{
    packing::mark_after_words(wide, words as u64, mark as u64) as usize
}

// calls:moved_words does the same for the fit of a record; calls and answers stand beside one another.
fn marks_behind(rules: Rules, words: usize, m: Marks) -> Marks
    requires { (words ≤ 65536) × MarksTo (2 ^ 60) m }
    ensures { result ≡ marks_behind rules.direction rules.wide words m }
{
    let direction = rules.direction;
    match direction {
        Direction::Incoming => Marks {
            incoming: mark_behind(rules.wide, words, m.incoming),
            outgoing: m.outgoing,
        },
        Direction::Outgoing => Marks {
            incoming: m.incoming,
            outgoing: mark_behind(rules.wide, words, m.outgoing),
        },
        Direction::Neither => m,
    }
}

// The note of the last of some words, by the marks behind it: those before are not there any more.
fn note_behind(rules: Rules, marks: Marks, note: Note) -> Note
    requires { NoteRoom rules.direction rules.wide marks }
    ensures { result ≡ note_behind rules.direction rules.wide marks note }
{
    let width = packing::width_of(rules.wide);
    let direction = rules.direction;
    match direction {
        Direction::Incoming => Note {
            buffer: 0,
            offset: marks.incoming - width,
            size: width,
        },
        Direction::Outgoing => Note {
            buffer: 1,
            offset: marks.outgoing - width,
            size: width,
        },
        Direction::Neither => note,
    }
}

// Behind some words, with the marks there. Numbers are an admitted list's.
fn behind_words(rules: Rules, here: Stay, words: usize, marks: Marks) -> Stay
    requires { (1 ≤ words) × ((words ≤ here.left) × ((here.left ≤ 65536) × ((here.taken < 2 ^ 61) × ((here.position < 65536)
        × (marks ≡ marks_behind rules.direction rules.wide words here.marks))))) }
    ensures { result ≡ after_words rules words here }
{
    let q = rules.q;
    let note = here.note;
    Stay {
        taken: here.taken + words,
        left: here.left - words,
        tries: 0,
        position: qmodes::place_after_words(q, here.position, words),
        marks,
        note: note_behind(rules, marks, note),
    }
}

// The same, with the marks found too.
fn after_words(rules: Rules, here: Stay, words: usize) -> Stay
    requires { (1 ≤ words) × ((words ≤ here.left) × ((here.left ≤ 65536) × ((here.taken < 2 ^ 61) × ((here.position < 65536)
        × MarksTo (2 ^ 60) here.marks)))) }
    ensures { result ≡ after_words rules words here }
{
    let before = here.marks;
    behind_words(rules, here, words, marks_behind(rules, words, before))
}

// The words from here on, whose first is known to be one: up to `most`, each stored where it is read.
fn take_words(
    rules: Rules,
    here: Stay,
    most: usize,
    incoming: &mut [u8],
    row: &[u8],
    answers: usize,
    tops: &TopBits,
) -> Stay
    requires { Roomy rules row.now answers here incoming.old × Words rules row.now answers here 1
        × ((1 ≤ most) × ((most ≤ words_ahead rules.q here.position here.left) × (here.taken + most ≤ answers))) }
    ensures { Takes rules row.now answers here incoming.old result incoming.new }
{
    let direction = rules.direction;
    let marks = here.marks;
    match direction {
        Direction::Incoming => {
            let read = read_words(
                rules.wide,
                incoming,
                marks.incoming,
                row,
                here.taken,
                most,
                rules.word,
                tops,
            );
            let behind = Marks {
                incoming: read.mark,
                outgoing: marks.outgoing,
            };
            behind_words(rules, here, read.words, behind)
        }
        Direction::Outgoing | Direction::Neither => {
            let words = pass_words(row, here.taken, most, rules.word);
            after_words(rules, here, words)
        }
    }
}

// The one word left, stored where it is read: the marks behind it.
fn last_word(
    rules: Rules,
    here: Stay,
    incoming: &mut [u8],
    row: &[u8],
    answers: usize,
    tops: &TopBits,
) -> Marks
    requires { Roomy rules row.now answers here incoming.old × Words rules row.now answers here 1 }
    ensures { (result ≡ marks_behind rules.direction rules.wide 1 here.marks)
        × (incoming.new ≡ bytes_after rules row.now 1 here incoming.old) }
{
    let direction = rules.direction;
    let marks = here.marks;
    match direction {
        Direction::Incoming => Marks {
            incoming: read_word(rules.wide, incoming, marks.incoming, row, here.taken, tops),
            outgoing: marks.outgoing,
        },
        Direction::Outgoing => Marks {
            incoming: marks.incoming,
            outgoing: mark_behind(rules.wide, 1, marks.outgoing),
        },
        Direction::Neither => marks,
    }
}

// Whether the answer here, which is no word, is no cause either.
fn is_wait(rules: Rules, limit: usize, here: Stay, row: &[u8], answers: usize) -> bool
    requires { (1 ≤ here.left) × ((here.taken + 1 ≤ answers) × ((answers * 8 ≤ length row.now) × ((here.tries < 65536)
        × (eqb (bit_and (flags_at row.now here.taken) rules.word) (rules.word % 4) ≡ false)))) }
    ensures { result ≡ true → Waits rules limit row.now answers here }
{
    let q = rules.q;
    if !is_word_at(row, here.taken, qmodes::wait_flags(q, rules.ad)) {
        return false;
    }
    qmodes::can_wait(q, limit, here.tries, here.position)
}

// One answer on, with no word moved.
fn waited(tries: usize, position: usize, here: Stay) -> Stay
    requires { here.taken < 2 ^ 61 }
    ensures { result ≡ waited_with tries position here }
{
    Stay {
        taken: here.taken + 1,
        tries,
        position,
        ..here
    }
}

#[tactic(auto, unfolding(crate::specs::model::Visit::after_wait, qmodes::specs::Modes::tries_after))]
fn after_wait(rules: Rules, here: Stay) -> Stay
    requires { (here.tries < 65536) × ((here.taken < 2 ^ 61) × (here.position < 65536)) }
    ensures { result ≡ after_wait rules here }
{
    let q = rules.q;
    match q {
        QMode::Stop | QMode::Ignore => waited(0, here.position, here),
        QMode::Repeat => waited(here.tries + 1, here.position, here),
        QMode::Scan => waited(0, qmodes::place_after_wait(q, here.position), here),
    }
}

// On over words and waits, until no word is left, the answers end or one of them is a cause.
fn visit_on(
    rules: Rules,
    limit: usize,
    from: Stay,
    incoming: &mut [u8],
    row: &[u8],
    answers: usize,
    tops: &TopBits,
) -> Stay
    requires { (limit < 65536) × Roomy rules row.now answers from incoming.old }
    ensures { Passed rules limit row.now answers from incoming.old result incoming.new }
{
    let mut here = from;
    while here.left != 0 {
        if answers <= here.taken {
            return here;
        }
        if is_word_at(row, here.taken, rules.word) {
            let q = rules.q;
            let ahead = qmodes::words_ahead(q, here.position, here.left);
            let most = ahead.min(answers - here.taken);
            if most == 0 {
                return here;
            }
            here = take_words(rules, here, most, incoming, row, answers, tops);
        } else {
            if !is_wait(rules, limit, here, row, answers) {
                return here;
            }
            here = after_wait(rules, here);
        }
    }
    here
}

// Whether the answer here is the last word of its instruction, by the Q-mode's number. A list sequencer, whose number is a scan's, is asked more than
// its own rules do; what this leaves is judged by them behind it.
fn is_last(first: u32, here: Stay, row: &[u8], answers: usize) -> bool
    requires { answers * 8 ≤ length row.now }
    ensures { result ≡ true → (here.left ≡ 1) × Words (rules_in first) row.now answers here 1 }
{
    if here.left != 1 {
        return false;
    }
    if answers <= here.taken {
        return false;
    }
    let mask = qmodes::word_flags(camac::numbered_qmode(first), camac::has_ad(first));
    is_word_at(row, here.taken, mask)
}

// The answers of an instruction from here on. A last word is taken without a loop.
pub fn visit(
    first: u32,
    limit: usize,
    from: Stay,
    incoming: &mut [u8],
    row: &[u8],
    answers: usize,
    tops: &TopBits,
) -> Stay
    requires { (limit < 65536) × (Passes first × Roomy (rules_in first) row.now answers from incoming.old) }
    ensures { Passed (rules_in first) limit row.now answers from incoming.old result incoming.new }
{
    if is_last(first, from, row, answers) {
        let rules = rules_in(first);
        let marks = last_word(rules, from, incoming, row, answers, tops);
        return behind_words(rules, from, 1, marks);
    }
    visit_on(rules_in(first), limit, from, incoming, row, answers, tops)
}
