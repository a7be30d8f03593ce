// CAMAC words: the decode of an instruction's longwords, refusals 6 to 9.
ghost use Rattle.std.specs.Prelude.{◌≡◌, ℕ, eqb, length, if◌then◌else◌};
ghost use Rattle.base.specs.Refusals.{numbered};
ghost use Rattle.base.specs.Refusals.{number_or_0};
ghost use Rattle.camac.specs.Words.{mode_in, qmode_bits, qmode_numbered, qmode_in, address_in, is_control, is_write, halfwords, block_words, transfer_in, command_in, qmode_of, address_of, words_of, direction_by, enhanced_direction, direction_of, is_enhanced, is_block, position_of, zero_bit_set, bad_address, is_sequencer_at, bad_enhanced, bad_mode, bad_count, above_word, bad_second, above_p, camac_fault, decode_of};

use crate::bits::{has_ad, is_scan_block, is_sequencer, is_wide, mode_in, start_in, words_in};
use base::Fault;
use qmodes::{QMode, ScanPosition, is_scan};

#[derive(Clone, Copy, Debug, PartialEq, Eq)]
pub struct Address {
    pub crate_number: u8,
    pub station: u8,
    pub subaddress: u8,
    pub function: u8,
}

impl Address {
    // Where a scan begins.
    pub(crate) fn position(self) -> ScanPosition
        ensures { result ≡ record { station = self.station; subaddress = self.subaddress } }
    {
        ScanPosition {
            station: self.station,
            subaddress: self.subaddress,
        }
    }
}

// A CAMAC instruction's transfer mode, which holds its Q-mode and its address; a block, enhanced or not, also its words wanted, an inline
// write its data. A list sequencer is an enhanced block in ignore.
#[derive(Clone, Copy, Debug, PartialEq, Eq)]
pub enum Transfer {
    Single(QMode, Address),
    Block(QMode, Address, u64),
    Enhanced(QMode, Address, u64),
    Inline(QMode, Address, u32),
}

// A CAMAC instruction: its transfer, whether its words are of 24 bits, and AD, abort disable.
#[derive(Clone, Copy, Debug, PartialEq, Eq)]
pub struct Command {
    pub transfer: Transfer,
    pub wide: bool,
    pub ad: bool,
}

// Which buffer the words of an instruction go through.
#[derive(Clone, Copy, Debug, PartialEq, Eq)]
pub enum Direction {
    Incoming,
    Outgoing,
    Neither,
}

// The Q-mode by its number alone.
pub fn numbered_qmode(first: u32) -> QMode
    ensures { result ≡ qmode_numbered (qmode_bits first) }
{
    match (first >> 3) % 4 {
        0 => QMode::Stop,
        1 => QMode::Ignore,
        2 => QMode::Repeat,
        _ => QMode::Scan,
    }
}

// The list sequencer's is ignore.
pub fn qmode_in(first: u32) -> QMode
    ensures { result ≡ qmode_in first }
{
    if is_sequencer(first) {
        return QMode::Ignore;
    }
    numbered_qmode(first)
}

// Each part has fewer bits than a byte, so that its cast loses none.
#[tactic(auto, unfolding(crate::specs::Words::address_in))]
pub(crate) fn address_in(first: u32) -> Address
    ensures { result ≡ address_in first }
{
    Address {
        crate_number: ((first >> 8) % 64) as u8,
        station: ((first >> 25) % 32) as u8,
        subaddress: ((first >> 21) % 16) as u8,
        function: ((first >> 16) % 32) as u8,
    }
}

fn is_control(f: u8) -> bool
    ensures { result ≡ is_control f }
{
    f / 8 % 2 == 1
}

fn is_write(f: u8) -> bool
    ensures { result ≡ is_write f }
{
    !is_control(f) && f / 16 % 2 == 1
}

// H, the halfwords of a block.
fn halfwords_in(second: u32) -> u64
    ensures { result ≡ halfwords second }
{
    (1 << 32) - u64::from(second)
}

#[tactic(auto, unfolding(crate::specs::Words::block_words))]
pub(crate) fn block_words(wide: bool, second: u32) -> u64
    ensures { result ≡ block_words wide second }
{
    let h = halfwords_in(second);
    if wide { h / 2 } else { h }
}

#[tactic(auto, unfolding(crate::specs::Words::transfer_in))]
fn transfer_in(mode: u32, q: QMode, a: Address, wide: bool, second: u32) -> Transfer
    ensures { result ≡ transfer_in mode q a wide second }
{
    match mode {
        0 => Transfer::Single(q, a),
        1 => Transfer::Block(q, a, block_words(wide, second)),
        2 => Transfer::Enhanced(q, a, block_words(wide, second)),
        _ => Transfer::Inline(q, a, second),
    }
}

// The instruction of a CAMAC field's longwords, whether or not it is refused.
#[tactic(auto, unfolding(crate::specs::Words::command_in))]
pub fn command_in(first: u32, second: u32) -> Command
    ensures { result ≡ command_in first second }
{
    let q = qmode_in(first);
    let a = address_in(first);
    let wide = is_wide(first);
    Command {
        transfer: transfer_in(mode_in(first), q, a, wide, second),
        wide,
        ad: has_ad(first),
    }
}

// The instruction of a single's first longword, whatever its second.
#[tactic(auto, using(crate::proofs::BitLaws::single_second))]
pub fn single_in(first: u32) -> Command
    requires { mode_in first ≡ 0 }
    ensures { (second : ℕ) → result ≡ command_in first second }
{
    Command {
        transfer: Transfer::Single(numbered_qmode(first), address_in(first)),
        wide: is_wide(first),
        ad: has_ad(first),
    }
}

#[tactic(auto, unfolding(crate::specs::Words::qmode_of))]
pub fn qmode_of(t: Transfer) -> QMode
    ensures { result ≡ qmode_of t }
{
    match t {
        Transfer::Single(q, _)
        | Transfer::Block(q, _, _)
        | Transfer::Enhanced(q, _, _)
        | Transfer::Inline(q, _, _) => q,
    }
}

#[tactic(auto, unfolding(crate::specs::Words::address_of))]
pub fn address_of(t: Transfer) -> Address
    ensures { result ≡ address_of t }
{
    match t {
        Transfer::Single(_, a)
        | Transfer::Block(_, a, _)
        | Transfer::Enhanced(_, a, _)
        | Transfer::Inline(_, a, _) => a,
    }
}

// n, the words wanted.
#[tactic(auto, unfolding(crate::specs::Words::words_of))]
pub fn words_of(t: Transfer) -> u64
    ensures { result ≡ words_of t }
{
    match t {
        Transfer::Single(..) | Transfer::Inline(..) => 1,
        Transfer::Block(_, _, n) | Transfer::Enhanced(_, _, n) => n,
    }
}

fn direction_by(f: u8) -> Direction
    ensures { result ≡ direction_by f }
{
    if is_control(f) {
        Direction::Neither
    } else if is_write(f) {
        Direction::Outgoing
    } else {
        Direction::Incoming
    }
}

// An enhanced block's: a list sequencer's is told by A.
fn enhanced_direction(a: Address) -> Direction
    ensures { result ≡ enhanced_direction a }
{
    if !is_control(a.function) {
        direction_by(a.function)
    } else if a.subaddress < 2 {
        Direction::Incoming
    } else {
        Direction::Outgoing
    }
}

#[tactic(auto, unfolding(crate::specs::Words::direction_of))]
pub fn direction_of(t: Transfer) -> Direction
    ensures { result ≡ direction_of t }
{
    match t {
        Transfer::Single(_, a) | Transfer::Block(_, a, _) => direction_by(a.function),
        Transfer::Enhanced(_, a, _) => enhanced_direction(a),
        Transfer::Inline(..) => Direction::Neither,
    }
}

#[tactic(auto, unfolding(crate::specs::Words::is_enhanced))]
pub fn is_enhanced(t: Transfer) -> bool
    ensures { result ≡ is_enhanced t }
{
    matches!(t, Transfer::Enhanced(..))
}

#[tactic(auto, unfolding(crate::specs::Words::is_block))]
pub fn is_block_of(t: Transfer) -> bool
    ensures { result ≡ is_block t }
{
    matches!(t, Transfer::Block(..) | Transfer::Enhanced(..))
}

// Where a scan begins.
pub fn position_of(t: Transfer) -> ScanPosition
    ensures { result ≡ position_of t }
{
    address_of(t).position()
}

fn is_zero_bit_set(first: u32) -> bool
    ensures { result ≡ zero_bit_set first }
{
    (first >> 31) % 2 == 1
        || (first >> 30) % 2 == 1
        || (first >> 15) % 2 == 1
        || (first >> 14) % 2 == 1
        || (first >> 7) % 2 == 1
        || (first >> 2) % 2 == 1
}

fn is_bad_address(first: u32) -> bool
    ensures { result ≡ bad_address first }
{
    let a = address_in(first);
    let n = a.station;
    !(1..=62).contains(&a.crate_number)
        || !((1..=23).contains(&n) || n == 30)
        || (n == 30 && is_scan(qmode_in(first)))
}

// Whether N, A and F are of one of the list sequencer's four instructions.
fn is_sequencer_at(a: Address) -> bool
    ensures { result ≡ is_sequencer_at a }
{
    a.station == 30 && a.function == 12 && a.subaddress <= 3
}

// Q-mode 2 is repeat: its number is tested, as in the definition.
fn is_bad_enhanced(first: u32) -> bool
    ensures { result ≡ bad_enhanced first }
{
    let a = address_in(first);
    if is_sequencer(first) {
        return !is_sequencer_at(a);
    }
    is_control(a.function) || ((first >> 3) % 4 == 2 && is_write(a.function))
}

// 8 of a field that is no single.
fn is_bad_mode(length: usize, first: u32) -> bool
    requires { ¬ (mode_in first ≡ 0) }
    ensures { result ≡ bad_mode length first }
{
    let f = address_in(first).function;
    length != 8
        || match mode_in(first) {
            1 => is_control(f),
            3 => !is_write(f),
            _ => is_bad_enhanced(first),
        }
}

fn is_bad_count(wide: bool, second: u32) -> bool
    ensures { result ≡ bad_count wide second }
{
    let h = halfwords_in(second);
    second == 0 || 65536 < h || (wide && h % 2 == 1)
}

fn is_above_word(wide: bool, second: u32) -> bool
    ensures { result ≡ above_word wide second }
{
    (if wide { 1 << 24 } else { 1 << 16 }) <= second
}

// 9 of a field that is no single, but for n above P.
fn is_bad_second(first: u32, second: u32) -> bool
    requires { ¬ (mode_in first ≡ 0) }
    ensures { result ≡ bad_second first second }
{
    let wide = is_wide(first);
    if mode_in(first) == 3 {
        is_above_word(wide, second)
    } else {
        is_bad_count(wide, second)
    }
}

fn is_above_p(first: u32, second: u32) -> bool
    ensures { result ≡ above_p (command_in first second).transfer }
{
    start_in(first).positions_left() < words_in(first, second)
}

// Refusals 6 to 9 of a CAMAC field's body. One word is never above P: every position has itself left.
#[tactic(auto, using(crate::proofs::FaultLaws::faults))]
pub fn camac_fault(length: usize, first: u32, second: u32) -> Result<(), Fault>
    ensures { number_or_0 result ≡ camac_fault length first second }
{
    if is_zero_bit_set(first) {
        return Err(Fault::ZeroBit);
    }
    if is_bad_address(first) {
        return Err(Fault::NoSuchAddress);
    }
    if mode_in(first) == 0 {
        return if length == 4 {
            Ok(())
        } else {
            Err(Fault::WrongMode)
        };
    }
    if is_bad_mode(length, first) {
        return Err(Fault::WrongMode);
    }
    if is_bad_second(first, second) || (is_scan_block(first) && is_above_p(first, second)) {
        return Err(Fault::WrongCount);
    }
    Ok(())
}

// A CAMAC field's body decoded, or refused by 6 to 9.
#[tactic(auto, unfolding(crate::specs::Words::decode_of))]
pub fn decode(length: usize, first: u32, second: u32) -> Result<Command, Fault>
    ensures { numbered result ≡ decode_of length first second }
{
    camac_fault(length, first, second)?;
    Ok(command_in(first, second))
}
