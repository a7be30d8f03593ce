// CAMAC words: the decode of an instruction's longwords, what a few of their bits say, the names of the error codes.
#![tactic(auto)]

pub mod bits;
pub mod names;
pub mod words;

pub use bits::{
    direction_in, has_ad, is_block, is_wide, mode_in, passed_qmode, place_in, start_in, words_in,
};
pub use names::error_name;
pub use words::{
    Address, Command, Direction, Transfer, address_of, camac_fault, command_in, decode,
    direction_of, is_block_of, is_enhanced, numbered_qmode, position_of, qmode_in, qmode_of,
    single_in, words_of,
};
