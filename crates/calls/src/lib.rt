// What the calls answer: fit, the operation wanted next, the last moved word.
#![tactic(auto)]

pub mod fit;
pub mod last;
pub mod operations;

pub use fit::{fits_at, moved_words};
pub use last::last_moved;
pub use operations::{Operation, operation_of};
use reply::Record;

// What start and step yield beside the buffers: the record, and the operation wanted next, if one is.
#[derive(Clone, Copy, Debug, PartialEq, Eq)]
pub struct Yield {
    pub run: Record,
    pub wanted: Option<Operation>,
}

// What a whole run yields beside the incoming buffer.
#[derive(Clone, Copy, Debug, PartialEq, Eq)]
pub struct Ran {
    pub run: Record,
    pub taken: usize,
}

// What several replies from a record on yield beside the buffers.
#[derive(Clone, Copy, Debug, PartialEq, Eq)]
pub struct Stepped {
    pub run: Record,
    pub taken: usize,
    pub wanted: Option<Operation>,
}
