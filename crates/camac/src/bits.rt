// What a few bits of the longwords say, for code that reads an admitted list in place: each the value that the decode gives
// (proofs/BitLaws). A transfer mode more shows in `is_block`, `direction_in` and `words_in`.
ghost use Rattle.std.specs.Prelude.{◌≡◌, ◌&&◌, ℕ, ◌+◌, ◌*◌, ◌/◌, ◌%◌, ◌<◌, eqb};
ghost use Rattle.camac.specs.Words.{mode_in, is_block_in, qmode_bits, is_sequencer_in, qmode_in, wide_in, ad_in, command_in, words_of, direction_of, position_of};
ghost use Rattle.camac.specs.model.Bits.{Passes};

use crate::words::{Direction, address_in, block_words, numbered_qmode, qmode_in};
use qmodes::{QMode, ScanPosition};

// The transfer mode by its number alone, as a list has it; Transfer names the modes, with what each holds.
pub fn mode_in(first: u32) -> u32
    ensures { result ≡ mode_in first }
{
    (first >> 5) % 4
}

// Whether the words are of 24 bits.
pub fn is_wide(first: u32) -> bool
    ensures { result ≡ wide_in first }
{
    (first >> 1) % 2 != 1
}

// AD, abort disable.
pub fn has_ad(first: u32) -> bool
    ensures { result ≡ ad_in first }
{
    first % 2 == 1
}

// Whether the second longword counts the words: in a block, enhanced or not. Modes 1 and 2 are those whose number, one added, is 2 or 3.
pub fn is_block(first: u32) -> bool
    ensures { result ≡ is_block_in first }
{
    (u64::from(first) + 32) / 64 % 2 == 1
}

// Transfer mode 1 and Q-mode 3, which lie side by side.
pub(crate) fn is_scan_block(first: u32) -> bool
    ensures { result ≡ (eqb (mode_in first) 1 && eqb (qmode_bits first) 3) }
{
    (first >> 3) % 16 == 7
}

// Sequencer mode: transfer mode 2 and Q-mode 3.
pub(crate) fn is_sequencer(first: u32) -> bool
    ensures { result ≡ is_sequencer_in first }
{
    (first >> 3) % 16 == 11
}

// The Q-mode of a field that passed. One with a read function is no list sequencer, whose F is 12.
// That the field passed is asked of the plain longword here and below: a struct for it would be made anew wherever one is read in place.
#[tactic(auto, using(crate::proofs::BitLaws::read_qmode))]
pub fn passed_qmode(first: u32) -> QMode
    requires { Passes first }
    ensures { result ≡ qmode_in first }
{
    if (first >> 19) % 4 == 0 {
        numbered_qmode(first)
    } else {
        qmode_in(first)
    }
}

// Which buffer the words go through. F's 8-bit and 16-bit say it of singles, of blocks and of every read; an inline write moves no mark.
#[tactic(auto, using(crate::proofs::BitLaws::reads_in, crate::proofs::BitLaws::standard_none, crate::proofs::BitLaws::standard_out))]
pub fn direction_in(first: u32) -> Direction
    requires { Passes first }
    ensures { (second : ℕ) → result ≡ direction_of (command_in first second).transfer }
{
    if (first >> 19) % 4 == 0 {
        Direction::Incoming
    } else if (first >> 6) % 2 == 1 {
        late_direction(first)
    } else if (first >> 19) % 2 == 1 {
        Direction::Neither
    } else {
        Direction::Outgoing
    }
}

// The same of modes 2 and 3 with no read function. Of an enhanced block a control function is the list sequencer's, whose A says it.
#[tactic(auto, using(crate::proofs::BitLaws::inline_none, crate::proofs::BitLaws::enhanced_out, crate::proofs::BitLaws::sequencer_in, crate::proofs::BitLaws::sequencer_out))]
fn late_direction(first: u32) -> Direction
    requires { (first / 64 % 2 ≡ 1) × ¬ (first / 524288 % 4 ≡ 0) }
    ensures { (second : ℕ) → result ≡ direction_of (command_in first second).transfer }
{
    if (first >> 5) % 2 == 1 {
        Direction::Neither
    } else if (first >> 19) % 2 == 1 && (first >> 21) % 16 < 2 {
        Direction::Incoming
    } else {
        Direction::Outgoing
    }
}

// n, the words wanted; of the second longword only a block's counts.
#[tactic(auto, using(crate::proofs::BitLaws::command_words))]
pub fn words_in(first: u32, second: u32) -> u64
    ensures { result ≡ words_of (command_in first second).transfer }
{
    if is_block(first) {
        block_words(is_wide(first), second)
    } else {
        1
    }
}

// Where a scan begins.
#[tactic(auto, using(crate::proofs::BitLaws::command_address))]
pub fn start_in(first: u32) -> ScanPosition
    ensures { (second : ℕ) → result ≡ position_of (command_in first second).transfer }
{
    address_in(first).position()
}

// The same as one number, N * 16 + A: the two lie side by side, and above them are zeros.
pub fn place_in(first: u32) -> usize
    requires { Passes first }
    ensures { ((second : ℕ) → result ≡ (position_of (command_in first second).transfer).station * 16
        + (position_of (command_in first second).transfer).subaddress) × (result < 512) }
{
    (first >> 21) as usize
}
