// Two values of a checked column compared where they stand.
#![tactic(auto)]

mod bytes;
mod value;

pub use value::order_values;
