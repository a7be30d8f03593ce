// One operation, one reply: replies, what ends a run, the status word, the record of a run and its changes.
#![tactic(auto)]

pub mod causes;
pub mod records;
pub mod replies;
pub mod status;

pub use causes::{Cause, cause_of, done_by, is_only_nine};
pub use records::{
    Note, Record, counted_record, ended_at, moved_marks, moved_record, note_after, wait_on,
    waits_for, with_marks, zero_record,
};
pub use replies::{Q_BIT, Reply, X_BIT, is_formed_at, reply_at, reply_of};
pub use status::{WAITING_BITS, flags_of, value_if};
