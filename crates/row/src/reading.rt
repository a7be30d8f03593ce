// A row of replies: whether it is formed, how many answers come first, and the status bits of some of them. A reply is read as one number. Some
// replies go by their numbers in the row, so that places stay those of the row.
ghost use Rattle.std.specs.Prelude.{◌≡◌, ◌+◌, ◌-◌, ◌*◌, ◌/◌, ◌%◌, ◌<◌, ◌≤◌, eqb, length, get_or, if◌then◌else◌};
ghost use Rattle.std.specs.Int.Bits.{bit_and};
ghost use Rattle.row.specs.model.Words.{ReadAs, StretchReadAs, bits_over, gathered_bits, raised_bits};

use reply::status::ERROR;

// Bits that are zero in each formed answer: kind, flags 6 and 7, bytes 2, 3 and 7.
const ZERO_IN_ANSWERS: u64 = 0xff00_0000_ffff_c0ff;

// Q and X in a reply.
const Q_AND_X: u64 = 0x300;

// The bits that any of some replies has, some of them negated.
fn any_bits<const NEGATED: u64>(row: &[u8], from: usize, to: usize) -> u64
    requires { (from ≤ to) × (to * 8 ≤ length row.now) }
    ensures { result ≡ bits_over NEGATED row.now from (to - from) }
{
    let mut bits: u64 = 0;
    for k in from..to {
        bits = bits | (base::quad_at(row, k * 8) ^ NEGATED);
    }
    bits
}

// The answers that come first, with reply k seen: none from it on if it is of another kind.
fn answers_with(row: &[u8], k: usize, answers: usize) -> usize
    requires { k * 8 < length row.now }
    ensures { (result ≤ answers) × (k < result → get_or row.now (k * 8) 0 ≡ 0) }
{
    if row[k * 8] == 0 {
        return answers;
    }
    answers.min(k)
}

// Some replies one by one: the answers that come first, none where a reply is not formed.
fn read_replies(row: &[u8], from: usize, to: usize, answers: usize) -> Option<usize>
    requires { to * 8 ≤ length row.now }
    ensures { StretchReadAs row.now from to answers result }
{
    let mut first = answers;
    for j in from..to {
        if !reply::is_formed_at(row, j * 8) {
            return None;
        }
        first = answers_with(row, j, first);
    }
    Some(first)
}

// Some replies at once if all of them are answers.
fn read_stretch(row: &[u8], from: usize, to: usize, answers: usize) -> Option<usize>
    requires { (from ≤ to) × (to * 8 ≤ length row.now) }
    ensures { StretchReadAs row.now from to answers result }
{
    if any_bits::<0>(row, from, to) & ZERO_IN_ANSWERS == 0 {
        return Some(answers);
    }
    read_replies(row, from, to, answers)
}

// Where a stretch of 64 replies or less ends.
fn stretch_end(from: usize, count: usize) -> usize
    requires { from < count }
    ensures { (from < result) × (result ≤ count) }
{
    if count - from < 64 {
        return count;
    }
    from + 64
}

// The number of answers before any reply of another kind; none where a reply is not formed. The row is read 64 replies at a time.
pub fn read_row(row: &[u8]) -> Option<usize>
    ensures { ReadAs row.now result }
{
    let count = row.len() / 8;
    if row.len() % 8 != 0 {
        return None;
    }
    let mut answers = count;
    // Counted by hand: with `step_by` a stretch takes 12 instructions more.
    let mut k: usize = 0;
    while k < count {
        let end = stretch_end(k, count);
        answers = read_stretch(row, k, end, answers)?;
        k = end;
    }
    Some(answers)
}

// The bit of TPE, LPE or ERR.
fn raised_error(g: u32) -> u32
    ensures { result ≡ (if eqb (bit_and g 52) 0 then 0 else 262144) }
{
    if g & 52 == 0 { 0 } else { ERROR }
}

// The status bits of flags, Q and X negated.
fn raised_bits(g: u32) -> u32
    requires { g < 64 }
    ensures { result ≡ raised_bits g }
{
    (g & 51) * 65536 | ((g & 4) * 2097152 | ((g & 8) * 8388608 | raised_error(g)))
}

// The status bits of the replies from one number to another.
pub fn gathered(row: &[u8], from: usize, to: usize) -> u32
    requires { (from ≤ to) × (to * 8 ≤ length row.now) }
    ensures { result ≡ gathered_bits row.now from (to - from) }
{
    raised_bits((any_bits::<Q_AND_X>(row, from, to) / 256 % 64) as u32)
}
