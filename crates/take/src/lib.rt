// One reply at one operation, one visit of the walk. What a record holds is bounded in contracts: C hands records in.
#![tactic(auto)]

ghost use Rattle.std.specs.Prelude.{◌≡◌, ◌^◌, ◌<◌, ◌≤◌, length};
ghost use Rattle.reply.specs.Causes.{code_of};
ghost use Rattle.reply.specs.Effect.{longword_of, moved_bytes};
ghost use Rattle.reply.specs.model.Coded.{code_or_none};
ghost use Rattle.walk.specs.Walk.{moved};
ghost use Rattle.take.specs.model.Here.{Ready, incoming_after, on_run, moved_if, bytes_if, moves_word, here_run, here_buffer, RoomFor, advance_run, advance_buffer};

use camac::{Command, Direction};
use listfile::Instruction;
use packing::Marks;
use reply::{
    Cause, Q_BIT, Record, Reply, X_BIT, cause_of, counted_record, done_by, ended_at, is_only_nine,
    moved_record, value_if, wait_on, waits_for, with_marks,
};
use walk::Spot;

// The first number that a 24-bit word cannot have.
const WORD_END: u32 = 1 << 24;

// What a reply leaves: the same operation waits on, it is through, or the run has ended.
#[derive(Clone, Copy, Debug, PartialEq, Eq)]
pub enum Taken {
    Same(Record),
    Through(Record),
    Ended(Record),
}

// Where a run stands after an instruction: it goes on at another, or it waits here or has ended. The names of ControlFlow would not say so.
#[derive(Clone, Copy, Debug, PartialEq, Eq)]
pub enum Advance {
    On(Spot, Record),
    At(Record),
}

// The longword that a read's word is stored as.
pub fn longword_of(reply: Reply) -> u32
    ensures { result ≡ longword_of reply }
{
    match reply {
        Reply::Answered(a) => a.word % WORD_END + value_if(a.x, X_BIT) + value_if(a.q, Q_BIT),
        Reply::Timeout | Reply::NotRecognised | Reply::NoSync => 0,
    }
}

// The word's bytes into the incoming buffer, for a read. The room is there: no mark passes B.
#[tactic(auto, using(crate::proofs::HereCases::room_incoming, crate::proofs::HereCases::stored_incoming, crate::proofs::HereCases::stored_outgoing, crate::proofs::HereCases::stored_neither))]
pub fn store_by(c: Command, reply: Reply, mark: usize, buffer: &mut [u8])
    requires { incoming_after c mark ≤ length buffer.old }
    ensures { buffer.new ≡ moved_bytes c (longword_of reply) mark buffer.old }
{
    match camac::direction_of(c.transfer) {
        Direction::Incoming => packing::store(buffer, mark, c.wide, longword_of(reply)),
        Direction::Outgoing | Direction::Neither => {}
    }
}

// Whether a reply moves its word: a done one where there is no cause, or one alone that allows it.
#[tactic(auto, using(reply::proofs::CodeCases::some_code), unfolding(crate::specs::model::Here::moves_word, crate::specs::model::Here::moves_at_end))]
fn moves_word(limit: usize, c: Command, reply: Reply, run: Record, cause: Option<Cause>) -> bool
    requires { code_or_none cause ≡ code_of limit c run reply }
    ensures { result ≡ moves_word limit c reply run }
{
    let done = done_by(camac::qmode_of(c.transfer), reply);
    match cause {
        None => done,
        Some(_) => done & is_only_nine(limit, c, run, reply, cause),
    }
}

// The record after a word, where it moves: its bytes go into the incoming buffer.
#[tactic(auto, using(crate::proofs::HereCases::room_after))]
fn moved_if(moves: bool, c: Command, reply: Reply, r: Record, incoming: &mut [u8]) -> Record
    requires { ((moved c r.marks).incoming ≤ length incoming.old) × (r.marks.outgoing < 2 ^ 63) }
    ensures record { result ≡ moved_if moves c r }
    ensures bytes { incoming.new ≡ bytes_if moves c (longword_of reply) r.marks.incoming incoming.old }
{
    if !moves {
        return r;
    }
    store_by(c, reply, r.marks.incoming, incoming);
    moved_record(c, r)
}

// No cause: the same operation waits on or is through. `after` is the record after the reply.
#[tactic(auto, unfolding(crate::specs::model::Here::on_run))]
fn go_on(c: Command, done: bool, before: Record, after: Record) -> Taken
    requires { (1 ≤ before.left) × (before.tries < 2 ^ 16) }
    ensures { result ≡ on_run c done before after }
{
    let q = camac::qmode_of(c.transfer);
    let left = qmodes::left_after(q, done, before.left);
    if left == 0 {
        return Taken::Through(after);
    }
    let tries = qmodes::tries_after(q, done, before.tries);
    let position = qmodes::position_after(q, done, before.position);
    Taken::Same(wait_on(left, tries, position, after))
}

// One reply at one operation. A record that fits an admitted list is ready.
#[tactic(auto, using(reply::proofs::CodeCases::some_code, crate::proofs::HereCases::counted_marks), unfolding(crate::specs::model::Here::here_run, crate::specs::model::Here::here_buffer, crate::specs::model::Here::moves_word))]
pub fn take_here(limit: usize, c: Command, reply: Reply, run: Record, incoming: &mut [u8]) -> Taken
    requires { Ready c run incoming.old }
    ensures record { result ≡ here_run limit c reply run }
    ensures bytes { incoming.new ≡ here_buffer limit c reply run incoming.old }
{
    let cause = cause_of(limit, c, run, reply);
    let moves = moves_word(limit, c, reply, run, cause);
    let counted = counted_record(limit, c, reply, run);
    let after = moved_if(moves, c, reply, counted, incoming);
    match cause {
        None => go_on(c, moves, run, after),
        Some(cause) => Taken::Ended(ended_at(run.spot, cause.code(), after)),
    }
}

// One visit of the walk. A list has at most 4,096 instructions, and no mark passes B.
#[tactic(auto, using(packing::proofs::MarkFacts::mark_grows), unfolding(crate::specs::model::Here::advance_run, crate::specs::model::Here::advance_buffer))]
pub fn advance_by(i: Instruction, at: Spot, r: Record, incoming: &mut [u8]) -> Advance
    requires { (at.instruction < 2 ^ 16) × RoomFor i r incoming.old }
    ensures { (result ≡ advance_run i at r) × (incoming.new ≡ advance_buffer i r incoming.old) }
{
    match i {
        Instruction::Camac(c) => Advance::At(waits_for(at, c, r)),
        Instruction::Jump(t) => Advance::On(walk::jump_to(t, at), r),
        Instruction::Literal(v) => {
            packing::store(incoming, r.marks.incoming, true, v);
            let marks = Marks {
                incoming: packing::mark_after(true, r.marks.incoming),
                ..r.marks
            };
            Advance::On(walk::spot_after(at), with_marks(marks, r))
        }
        Instruction::Halt => Advance::At(ended_at(at, 0, r)),
    }
}
