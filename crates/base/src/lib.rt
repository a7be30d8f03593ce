// What every crate uses: why a call is refused, little-endian numbers in a row of bytes.
#![tactic(auto)]

pub mod bytes;
pub mod refusals;

pub use bytes::{
    byte_at, long_at, pair_at, put_long, put_quad, put_short, quad_at, short_at, whole_at,
};
pub use refusals::{Fault, Refused};
