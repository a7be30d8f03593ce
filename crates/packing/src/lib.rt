// Packing: fill marks, and the bytes of words and literals in the host's buffers.
#![tactic(auto)]

ghost use Rattle.std.specs.Prelude.{◌≡◌, true, ◌+◌, ◌%◌, ◌^◌, ◌<◌, ◌≤◌, length};
ghost use Rattle.std.proofs.lemmas.List.Edits.{sets};
ghost use Rattle.base.specs.Bytes.{long_bytes};
ghost use Rattle.packing.specs.Packing.{aligned_mark, width_of, mark_after, mark_after_words, stored, word_at};

use base::byte_at;

// The two fill marks: the bytes used so far of the incoming and of the outgoing buffer. The bound of a mark stands in contracts, and not here:
// Marks is part of the record that C hands in, which may hold any numbers until it is seen whether it fits.
#[derive(Clone, Copy, Debug, PartialEq, Eq)]
pub struct Marks {
    pub incoming: usize,
    pub outgoing: usize,
}

#[tactic(auto, unfolding(crate::specs::Packing::width_of))]
pub fn width_of(wide: bool) -> usize
    ensures { (result ≡ width_of wide) × (result ≤ 4) }
{
    if wide { 4 } else { 2 }
}

// Where a word goes, behind its pad. Every mark is below 2^63: it counts bytes of a buffer.
#[tactic(auto, unfolding(crate::specs::Packing::aligned_mark, crate::specs::Packing::pad_at))]
pub fn aligned_mark(wide: bool, mark: usize) -> usize
    requires { mark < 2 ^ 63 }
    ensures { (result ≡ aligned_mark wide mark) × (result ≤ mark + 3) }
{
    if wide { mark + mark % 4 } else { mark }
}

// The mark after one word. Every mark is below 2^63: it counts bytes of a buffer.
#[tactic(auto, unfolding(crate::specs::Packing::mark_after))]
pub fn mark_after(wide: bool, mark: usize) -> usize
    requires { mark < 2 ^ 63 }
    ensures { (result ≡ mark_after wide mark) × (result ≤ mark + 7) }
{
    aligned_mark(wide, mark) + width_of(wide)
}

// The mark after n words, from an even one: a pad can come before the first only. Admission's marks are sums over at most 4,096 instructions
// of at most 2^32 words each.
#[tactic(auto, using(crate::proofs::MarkFacts::narrow_words, crate::proofs::MarkFacts::wide_words, crate::proofs::MarkFacts::no_words))]
pub fn mark_after_words(wide: bool, words: u64, mark: u64) -> u64
    requires { (mark ≤ 2 ^ 62) × ((words ≤ 2 ^ 32) × (mark % 2 ≡ 0)) }
    ensures { result ≡ mark_after_words wide words mark }
{
    if !wide {
        mark + words * 2
    } else if words == 0 {
        mark
    } else {
        mark + mark % 4 + words * 4
    }
}

// Makes a buffer ready for a 24-bit word or a literal at the mark: where it goes, and four zero bytes at the mark. Those of them that are no pad lie
// where the word's bytes go, so that nothing here depends on the mark's remainder.
#[tactic(auto, using(crate::proofs::MarkFacts::mark_wide, crate::proofs::MarkFacts::aligned_above))]
pub fn pad(buffer: &mut [u8], mark: usize) -> usize
    requires { mark_after true mark ≤ length buffer.old }
    ensures { (result ≡ aligned_mark true mark) × (buffer.new ≡ sets buffer.old mark (long_bytes 0)) }
{
    let to = aligned_mark(true, mark);
    base::put_long(buffer, mark, 0);
    to
}

// A word or literal at the mark, behind its pad. The room is there: no mark passes B, and admission holds B against the buffer.
#[tactic(auto, using(crate::proofs::MarkFacts::mark_narrow, crate::proofs::MarkFacts::mark_wide, crate::proofs::MarkFacts::aligned_above, crate::proofs::MarkFacts::stored_narrow, crate::proofs::MarkFacts::stored_over))]
pub fn store(buffer: &mut [u8], mark: usize, wide: bool, v: u32)
    requires { mark_after wide mark ≤ length buffer.old }
    ensures { buffer.new ≡ stored wide v mark buffer.old }
{
    if wide {
        let to = pad(buffer, mark);
        base::put_long(buffer, to, v);
    } else {
        base::put_short(buffer, mark, v);
    }
}

// The outgoing word at the mark, summed: a third byte is read of a wide word alone. Every mark is below 2^63: it counts bytes of a buffer.
#[tactic(auto, unfolding(crate::specs::Packing::word_at))]
pub fn fetch(buffer: &[u8], mark: usize, wide: bool) -> u32
    requires { mark < 2 ^ 63 }
    ensures { (result ≡ word_at wide mark buffer.now) × (result < 16777216) }
{
    let at = aligned_mark(wide, mark);
    let low = u32::from(byte_at(buffer, at)) + u32::from(byte_at(buffer, at + 1)) * 256;
    if wide {
        low + u32::from(byte_at(buffer, at + 2)) * 65536
    } else {
        low
    }
}
