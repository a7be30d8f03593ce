// Decimal scalers: a row of stored longwords converted to binary, and back.
#![tactic(auto)]

pub mod longwords;
pub mod rows;

pub use longwords::Way;
pub use rows::convert;
