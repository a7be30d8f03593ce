// For a host in C: the calls, their answers as rows of numbers. include/camlist.h declares them. The version stands in each symbol's name, so
// that an object compiled with an older header does not link.
#![tactic(auto)]

pub mod decimal;
pub mod entries;
pub mod names;
pub mod numbers;
pub mod queue;
