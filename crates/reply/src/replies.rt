// Replies: what eight bytes say.
ghost use Rattle.std.specs.Prelude.{◌≡◌, ◌+◌, ◌≤◌, true, length, take, drop};
ghost use Rattle.std.proofs.Math.Option.{some};
ghost use Rattle.reply.specs.Replies.{answer_in, reply_of, is_formed};
ghost use Rattle.reply.specs.model.Decoded.{formed_by};

use qmodes::Answer;

// The bits of a stored longword that are its answer's X and Q.
pub const X_BIT: u32 = 1 << 30;

pub const Q_BIT: u32 = 1 << 31;

#[derive(Clone, Copy, Debug, PartialEq, Eq)]
pub enum Reply {
    Answered(Answer),
    Timeout,
    NotRecognised,
    NoSync,
}

fn answer_in(bytes: &[u8; 8]) -> Answer
    ensures { result ≡ answer_in bytes.now }
{
    let flags = bytes[1];
    Answer {
        q: flags % 2 == 1,
        x: flags / 2 % 2 == 1,
        err: flags / 4 % 2 == 1,
        derr: flags / 8 % 2 == 1,
        tpe: flags / 16 % 2 == 1,
        lpe: flags / 32 % 2 == 1,
        word: u32::from_le_bytes([bytes[4], bytes[5], bytes[6], 0]),
    }
}

// Whether eight bytes are a reply. An answer leaves early: all tests in one expression take 9 instructions more an answer.
fn is_formed(bytes: &[u8; 8]) -> bool
    ensures { result ≡ is_formed bytes.now }
{
    let [kind, flags, second, third, low, middle, high, last] = *bytes;
    if (second == 0) & (third == 0) & (last == 0) {
        if kind == 0 {
            return flags < 64;
        }
        return (kind <= 3) & (flags == 0) & (low == 0) & (middle == 0) & (high == 0);
    }
    false
}

// The reply that formed bytes are: the kind, the flags and the data are all that is read.
#[tactic(auto, using(crate::proofs::ReplyFacts::reply_answer, crate::proofs::ReplyFacts::reply_timeout, crate::proofs::ReplyFacts::reply_not_recognised, crate::proofs::ReplyFacts::reply_no_sync), unfolding(base::specs::Bytes::byte_at))]
fn reply_in(bytes: &[u8; 8]) -> Reply
    requires { is_formed bytes.now ≡ true }
    ensures { reply_of bytes.now ≡ some result }
{
    match bytes[0] {
        0 => Reply::Answered(answer_in(bytes)),
        1 => Reply::Timeout,
        2 => Reply::NotRecognised,
        _ => Reply::NoSync,
    }
}

// Whether the eight bytes at a place of a row are a reply. A row that is checked is a multiple of 8 bytes.
pub fn is_formed_at(row: &[u8], at: usize) -> bool
    requires { at + 8 ≤ length row.now }
    ensures { result ≡ is_formed (take 8 (drop at row.now)) }
{
    is_formed(row[at..at + 8].as_array().unwrap())
}

// The reply at a place of a row, which has passed its check.
pub fn reply_at(row: &[u8], at: usize) -> Reply
    requires { (at + 8 ≤ length row.now) × (is_formed (take 8 (drop at row.now)) ≡ true) }
    ensures { reply_of (take 8 (drop at row.now)) ≡ some result }
{
    reply_in(row[at..at + 8].as_array().unwrap())
}

// The reply that bytes are; none where they are not formed as one.
#[tactic(auto, using(crate::proofs::ReplyFacts::reply_short))]
pub fn reply_of(bytes: &[u8]) -> Option<Reply>
    ensures { formed_by result ≡ reply_of bytes.now }
{
    let bytes = bytes.as_array()?;
    if is_formed(bytes) {
        Some(reply_in(bytes))
    } else {
        None
    }
}
