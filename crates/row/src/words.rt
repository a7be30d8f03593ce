// Words: answers by whose flags a word moves. They are judged by a mask of flags, counted, and stored where they are read. That
// a row is formed stands in contracts: the row is lent on as its owner has it.
ghost use Rattle.std.specs.Prelude.{◌≡◌, true, false, ◌+◌, ◌*◌, ◌%◌, ◌<◌, ◌≤◌, eqb, length};
ghost use Rattle.std.specs.Int.Bits.{bit_and};
ghost use Rattle.std.proofs.lemmas.List.Edits.{sets};
ghost use Rattle.base.specs.Bytes.{short_bytes};
ghost use Rattle.packing.specs.Packing.{mark_after, mark_after_words, stored};
ghost use Rattle.reply.specs.Replies.{replies_in, all_formed};
ghost use Rattle.row.specs.model.Words.{longword_in, flags_at, WordsAt, WideTaken, words_stored};

use crate::tops::TopBits;

// Whether an answer is a word: of the flags in the mask, just Q and X are set.
pub fn is_word_at(row: &[u8], k: usize, mask: u8) -> bool
    requires { k * 8 + 8 ≤ length row.now }
    ensures { result ≡ eqb (bit_and (flags_at row.now k) mask) (mask % 4) }
{
    row[k * 8 + 1] & mask == mask % 4
}

// Words written, or of a control: their number.
pub fn pass_words(row: &[u8], from: usize, most: usize, mask: u8) -> usize
    requires { (from + most) * 8 ≤ length row.now }
    ensures { (result ≤ most) × (WordsAt mask row.now from result
        × (1 ≤ most → eqb (bit_and (flags_at row.now from) mask) (mask % 4) ≡ true → 1 ≤ result)) }
{
    for k in 0..most {
        if !is_word_at(row, from + k, mask) {
            return k;
        }
    }
    most
}

// The word of 16 bits of the answer at a place. Both bytes are read first: the back end does not know that row and buffer lie apart.
fn put_narrow(incoming: &mut [u8], to: usize, row: &[u8], at: usize)
    requires { (to + 2 ≤ length incoming.old) × (at + 8 ≤ length row.now) }
    ensures { incoming.new ≡ sets incoming.old to (short_bytes (longword_in row.now at)) }
{
    let low = row[at + 4];
    let high = row[at + 5];
    incoming[to] = low;
    incoming[to + 1] = high;
}

// The longword that a word of 24 bits is stored as. Byte 7 of an answer is zero. The word is read first: the other order costs singles two moves.
fn wide_at(row: &[u8], k: usize, tops: &TopBits) -> u32
    requires { (k * 8 + 8 ≤ length row.now) × (all_formed (replies_in row.now) ≡ true) }
    ensures { result ≡ longword_in row.now (k * 8) }
{
    let word = base::whole_at(row, k * 8 + 4);
    word + tops.of(row[k * 8 + 1])
}

// Words of 16 bits read: their number, up to `most`, each stored.
fn read_narrow(
    incoming: &mut [u8],
    mark: usize,
    row: &[u8],
    from: usize,
    most: usize,
    mask: u8,
) -> usize
    requires { ((from + most) * 8 ≤ length row.now) × (mark + most * 2 ≤ length incoming.old) }
    ensures { (result ≤ most) × (WordsAt mask row.now from result
        × ((1 ≤ most → eqb (bit_and (flags_at row.now from) mask) (mask % 4) ≡ true → 1 ≤ result)
        × (incoming.new ≡ words_stored false row.now from mark result incoming.old))) }
{
    for k in 0..most {
        if !is_word_at(row, from + k, mask) {
            return k;
        }
        put_narrow(incoming, mark + k * 2, row, (from + k) * 8);
    }
    most
}

// Stores an answer's word of 24 bits, if it is a word: whether it is.
fn take_wide(incoming: &mut [u8], to: usize, row: &[u8], k: usize, mask: u8, tops: &TopBits) -> bool
    requires { (to + 4 ≤ length incoming.old) × ((k * 8 + 8 ≤ length row.now) × (all_formed (replies_in row.now) ≡ true)) }
    ensures { WideTaken mask row.now k to incoming.old result incoming.new }
{
    if !is_word_at(row, k, mask) {
        return false;
    }
    base::put_long(incoming, to, wide_at(row, k, tops));
    true
}

// Words of 24 bits read, from a multiple of 4 on: their number, each stored. Two at a time, and the last of an odd number.
fn read_wide(
    incoming: &mut [u8],
    mark: usize,
    row: &[u8],
    from: usize,
    most: usize,
    mask: u8,
    tops: &TopBits,
) -> usize
    requires { ((from + most) * 8 ≤ length row.now) × ((mark + most * 4 ≤ length incoming.old) × ((mark % 4 ≡ 0)
        × (all_formed (replies_in row.now) ≡ true))) }
    ensures { (result ≤ most) × (WordsAt mask row.now from result
        × ((1 ≤ most → eqb (bit_and (flags_at row.now from) mask) (mask % 4) ≡ true → 1 ≤ result)
        × (incoming.new ≡ words_stored true row.now from mark result incoming.old))) }
{
    // Counted by hand, two a turn: with one a turn by `for`, a word takes 1.5 instructions more.
    let mut k: usize = 0;
    while k + 1 < most {
        if !take_wide(incoming, mark + k * 4, row, from + k, mask, tops) {
            return k;
        }
        let next = k + 1;
        if !take_wide(incoming, mark + next * 4, row, from + next, mask, tops) {
            return next;
        }
        k += 2;
    }
    if most <= k {
        return k;
    }
    if take_wide(incoming, mark + k * 4, row, from + k, mask, tops) {
        return k + 1;
    }
    k
}

// Words read: how many, and the mark behind them.
#[derive(Clone, Copy, Debug, PartialEq, Eq)]
pub struct WordsRead {
    pub words: usize,
    pub mark: usize,
}

// Words read, from an even mark on, each stored. The first is known to be one.
pub fn read_words(
    wide: bool,
    incoming: &mut [u8],
    mark: usize,
    row: &[u8],
    from: usize,
    most: usize,
    mask: u8,
    tops: &TopBits,
) -> WordsRead
    requires { (1 ≤ most) × (((from + most) * 8 ≤ length row.now) × ((mark_after_words wide most mark ≤ length incoming.old)
        × ((mark % 2 ≡ 0) × ((all_formed (replies_in row.now) ≡ true) × WordsAt mask row.now from 1)))) }
    ensures { (1 ≤ result.words) × ((result.words ≤ most) × (WordsAt mask row.now from result.words
        × ((incoming.new ≡ words_stored wide row.now from mark result.words incoming.old)
        × (result.mark ≡ mark_after_words wide result.words mark)))) }
{
    if wide {
        let to = packing::pad(incoming, mark);
        let k = read_wide(incoming, to, row, from, most, mask, tops);
        return WordsRead {
            words: k,
            mark: to + k * 4,
        };
    }
    let k = read_narrow(incoming, mark, row, from, most, mask);
    WordsRead {
        words: k,
        mark: mark + k * 2,
    }
}

// One word read and stored: the mark behind it.
pub fn read_word(
    wide: bool,
    incoming: &mut [u8],
    mark: usize,
    row: &[u8],
    k: usize,
    tops: &TopBits,
) -> usize
    requires { (mark_after wide mark ≤ length incoming.old) × ((k * 8 + 8 ≤ length row.now) × (all_formed (replies_in row.now) ≡ true)) }
    ensures { (result ≡ mark_after wide mark)
        × (incoming.new ≡ stored wide (longword_in row.now (k * 8)) mark incoming.old) }
{
    if wide {
        packing::store(incoming, mark, true, wide_at(row, k, tops));
        packing::mark_after(true, mark)
    } else {
        put_narrow(incoming, mark, row, k * 8);
        mark + 2
    }
}
