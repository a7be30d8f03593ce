// The status bits of a reply. What a record holds is bounded in contracts: C hands records in.
ghost use Rattle.std.specs.Prelude.{◌≡◌, ◌^◌, ◌<◌, ◌||◌, if◌then◌else◌};
ghost use Rattle.reply.specs.Status.{flags_of};

use crate::records::Record;
use crate::replies::Reply;
use camac::Command;
use qmodes::Answer;

// The status bits, and the place of the code.
pub const CODE: u32 = 1 << 28;

pub const DERR: u32 = 1 << 26;

pub const TIMEOUT: u32 = 1 << 25;

pub const NO_SYNC: u32 = 1 << 24;

pub const ERR: u32 = 1 << 23;

pub const SCAN_LEFT: u32 = 1 << 22;

pub const LPE: u32 = 1 << 21;

pub const TPE: u32 = 1 << 20;

pub const NOT_RECOGNISED: u32 = 1 << 19;

pub const ERROR: u32 = 1 << 18;

pub const NO_X: u32 = 1 << 17;

pub const NO_Q: u32 = 1 << 16;

pub const ENDED: u32 = 1 << 7;

// The bits that a waiting record's status may have.
pub const WAITING_BITS: u32 = NO_Q | NO_X | ERROR | TPE | LPE | ERR | DERR;

// A value where a test holds, else 0. A product with u32::from(holds) would say it less plainly.
pub fn value_if(holds: bool, value: u32) -> u32
    ensures { result ≡ (if holds then value else 0) }
{
    if holds { value } else { 0 }
}

fn has_error(a: Answer) -> bool
    ensures { result ≡ (a.tpe || (a.lpe || a.err)) }
{
    a.tpe | (a.lpe | a.err)
}

// The status bits of an answer. Tries stay below R, and R below 2^16.
fn answer_flags(limit: usize, c: Command, r: Record, a: Answer) -> u32
    requires { r.tries < 2 ^ 16 }
    ensures { result ≡ flags_of limit c r (Reply.Answered a) }
{
    let q = camac::qmode_of(c.transfer);
    let low = value_if(a.tpe, TPE)
        | (value_if(has_error(a), ERROR) | (value_if(!a.x, NO_X) | value_if(!a.q, NO_Q)));
    let leaving = qmodes::scan_leaves(q, a, r.position, r.left);
    let middle = value_if(a.err, ERR)
        | (value_if(leaving, SCAN_LEFT) | (value_if(a.lpe, LPE) | low));
    let spent = qmodes::is_spent(limit, q, a, r.tries);
    value_if(a.derr, DERR) | (value_if(spent, TIMEOUT) | middle)
}

#[tactic(auto, unfolding(crate::specs::Status::flags_of))]
pub fn flags_of(limit: usize, c: Command, r: Record, reply: Reply) -> u32
    requires { r.tries < 2 ^ 16 }
    ensures { result ≡ flags_of limit c r reply }
{
    match reply {
        Reply::Answered(a) => answer_flags(limit, c, r, a),
        Reply::Timeout => TIMEOUT,
        Reply::NotRecognised => NOT_RECOGNISED,
        Reply::NoSync => NO_SYNC,
    }
}
