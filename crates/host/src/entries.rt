// The entry points: admission, start, step, several replies and the whole run.
ghost use Rattle.std.specs.Prelude.{◌≡◌};
ghost use Rattle.calls.specs.Calls.{run_of};
ghost use Rattle.walk.specs.Admission.{admit_of, numbers_of};
ghost use Rattle.host.specs.Numbers.{run_numbers, start_by_numbers, step_by_numbers, steps_by_numbers};

use crate::numbers::{
    admission_numbers, call_numbers, first_record, numbers_after, record_numbers, record_of,
    run_numbers, steps_numbers,
};

#[unsafe(no_mangle)]
pub extern "C" fn camlist_admit_v2(
    list: &[u8],
    incoming_len: u64,
    outgoing_len: u64,
    answer: &mut [u64; 5],
)
    ensures { answer.new ≡ numbers_of (admit_of list.now incoming_len outgoing_len) }
{
    *answer = admission_numbers(walk::admit(list, incoming_len as usize, outgoing_len as usize));
}

#[unsafe(no_mangle)]
pub extern "C" fn camlist_run_v2(
    list: &[u8],
    incoming: &mut [u8],
    outgoing: &[u8],
    replies: &[u8],
    answer: &mut [u64; 16],
)
    ensures answer { answer.new ≡ run_numbers (run_of list.now incoming.old outgoing.now replies.now) }
    ensures incoming { incoming.new ≡ (run_of list.now incoming.old outgoing.now replies.now).state.incoming }
    ensures outgoing { outgoing.now ≡ (run_of list.now incoming.old outgoing.now replies.now).state.outgoing }
{
    *answer = run_numbers(whole_run::run_row(list, incoming, outgoing, replies));
}

#[unsafe(no_mangle)]
pub extern "C" fn camlist_start_v2(
    list: &[u8],
    incoming: &mut [u8],
    outgoing: &[u8],
    record: &mut [u64; 13],
    answer: &mut [u64; 8],
)
    ensures answer { answer.new ≡ (start_by_numbers list.now incoming.old outgoing.now).answer }
    ensures record { «record».new ≡ (start_by_numbers list.now incoming.old outgoing.now).run }
    ensures incoming { incoming.new ≡ (start_by_numbers list.now incoming.old outgoing.now).incoming }
    ensures outgoing { outgoing.now ≡ (start_by_numbers list.now incoming.old outgoing.now).outgoing }
{
    let outcome = step::start(list, incoming, outgoing);
    *record = record_numbers(first_record(outcome));
    *answer = call_numbers(outcome);
}

#[unsafe(no_mangle)]
pub extern "C" fn camlist_step_v2(
    list: &[u8],
    record: &mut [u64; 13],
    incoming: &mut [u8],
    outgoing: &[u8],
    reply: &[u8],
    answer: &mut [u64; 8],
)
    ensures answer { answer.new ≡ (step_by_numbers list.now «record».old incoming.old outgoing.now reply.now).answer }
    ensures record { «record».new ≡ (step_by_numbers list.now «record».old incoming.old outgoing.now reply.now).run }
    ensures incoming { incoming.new ≡ (step_by_numbers list.now «record».old incoming.old outgoing.now reply.now).incoming }
    ensures outgoing { outgoing.now ≡ (step_by_numbers list.now «record».old incoming.old outgoing.now reply.now).outgoing }
{
    let given = *record;
    let outcome = step::step(list, record_of(given), incoming, outgoing, reply);
    *record = numbers_after(given, outcome.map(|y| y.run));
    *answer = call_numbers(outcome);
}

#[unsafe(no_mangle)]
pub extern "C" fn camlist_steps_v2(
    list: &[u8],
    record: &mut [u64; 13],
    incoming: &mut [u8],
    outgoing: &[u8],
    replies: &[u8],
    answer: &mut [u64; 9],
)
    ensures answer { answer.new ≡ (steps_by_numbers list.now «record».old incoming.old outgoing.now replies.now).answer }
    ensures record { «record».new ≡ (steps_by_numbers list.now «record».old incoming.old outgoing.now replies.now).run }
    ensures incoming { incoming.new ≡ (steps_by_numbers list.now «record».old incoming.old outgoing.now replies.now).incoming }
    ensures outgoing { outgoing.now ≡ (steps_by_numbers list.now «record».old incoming.old outgoing.now replies.now).outgoing }
{
    let given = *record;
    let outcome = whole_run::steps(list, record_of(given), incoming, outgoing, replies);
    *record = numbers_after(given, outcome.map(|y| y.run));
    *answer = steps_numbers(outcome);
}
