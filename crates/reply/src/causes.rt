// When a word is done, and what ends a run. What a record holds is bounded in contracts: C hands records in.
ghost use Rattle.std.specs.Prelude.{◌≡◌, ◌^◌, ◌<◌, ◌≤◌};
ghost use Rattle.reply.specs.Causes.{done_by, parity_error, damaged, causes_of, code_of, only_nine};
ghost use Rattle.reply.specs.model.Coded.{code_by, code_or_none};

use crate::records::Record;
use crate::replies::Reply;
use camac::Command;
use qmodes::{Answer, QMode};

// What ends a run, with its code in the status.
#[derive(Clone, Copy, Debug, PartialEq, Eq)]
pub enum Cause {
    Damaged = 4,
    NoQ = 7,
    NoX = 8,
    ScanLeft = 9,
    Parity = 10,
    Timeout = 11,
    NotRecognised = 12,
    NoSync = 13,
}

impl Cause {
    pub fn code(self) -> u32
        ensures code { result ≡ code_by self }
        ensures small { result ≤ 13 }
    {
        self as u32
    }
}

pub fn done_by(q: QMode, reply: Reply) -> bool
    ensures { result ≡ done_by q reply }
{
    match reply {
        Reply::Answered(a) => qmodes::is_done(q, a),
        Reply::Timeout | Reply::NotRecognised | Reply::NoSync => false,
    }
}

fn has_parity_error(ad: bool, a: Answer) -> bool
    ensures { result ≡ parity_error ad a }
{
    (a.tpe | a.lpe) & !ad
}

fn is_damaged(ad: bool, a: Answer) -> bool
    ensures { result ≡ damaged ad a }
{
    (a.err & a.x) & !ad
}

// What ends a run at an answer: its greatest cause. Tries stay below R, and R below 2^16.
#[tactic(auto, using(crate::proofs::CodeCases::code_first))]
fn answer_cause(limit: usize, c: Command, r: Record, a: Answer) -> Option<Cause>
    requires { r.tries < 2 ^ 16 }
    ensures { code_or_none result ≡ code_of limit c r (Reply.Answered a) }
{
    let q = camac::qmode_of(c.transfer);
    if qmodes::is_spent(limit, q, a, r.tries) {
        return Some(Cause::Timeout);
    }
    if has_parity_error(c.ad, a) {
        return Some(Cause::Parity);
    }
    if qmodes::scan_leaves(q, a, r.position, r.left) {
        return Some(Cause::ScanLeft);
    }
    if qmodes::has_no_x(q, c.ad, a) {
        return Some(Cause::NoX);
    }
    if qmodes::has_no_q(q, camac::is_block_of(c.transfer), a) {
        return Some(Cause::NoQ);
    }
    if is_damaged(c.ad, a) {
        return Some(Cause::Damaged);
    }
    None
}

// What ends a run at a reply, if anything does.
#[tactic(auto, unfolding(crate::specs::Causes::code_of, crate::specs::Causes::causes_of))]
pub fn cause_of(limit: usize, c: Command, r: Record, reply: Reply) -> Option<Cause>
    requires { r.tries < 2 ^ 16 }
    ensures { code_or_none result ≡ code_of limit c r reply }
{
    match reply {
        Reply::Answered(a) => answer_cause(limit, c, r, a),
        Reply::Timeout => Some(Cause::Timeout),
        Reply::NotRecognised => Some(Cause::NotRecognised),
        Reply::NoSync => Some(Cause::NoSync),
    }
}

// Whether a scan that left its last station is the only cause: a damaged command may stand beside it.
#[tactic(auto, unfolding(crate::specs::Causes::causes_of))]
pub fn is_only_nine(limit: usize, c: Command, r: Record, reply: Reply, cause: Option<Cause>) -> bool
    requires { code_or_none cause ≡ code_of limit c r reply }
    ensures { result ≡ only_nine (causes_of limit c r reply) }
{
    match reply {
        Reply::Answered(a) => !is_damaged(c.ad, a) & (cause == Some(Cause::ScanLeft)),
        Reply::Timeout | Reply::NotRecognised | Reply::NoSync => false,
    }
}
