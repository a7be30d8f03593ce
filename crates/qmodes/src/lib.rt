// What each Q-mode does with an answer, and scan positions.
#![tactic(auto)]

pub mod modes;
pub mod scan;

pub use modes::{
    Answer, QMode, can_wait, has_no_q, has_no_x, is_done, is_leaving, is_scan, is_spent,
    left_after, most_left, place_after_wait, place_after_words, position_after, position_fits,
    scan_leaves, tries_after, tries_fit, wait_flags, word_flags, words_ahead, worst_words,
};
pub use scan::ScanPosition;
