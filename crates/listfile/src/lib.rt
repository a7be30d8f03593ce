// The list file: its fields front to back, refusals 1 to 10, the instruction of a field and its parts.
#![tactic(auto)]

pub mod check;
pub mod field;
pub mod parts;
pub mod reader;

pub use check::{Extent, Sizes, check_list};
pub use field::{Instruction, Tag, field_at, instruction_at};
pub use parts::{first_at, tag_in, target_at, words_at};
pub use reader::{is_at_end, moved, open, read, read_at};
