// The row station: the public entries, a module each, and nothing else that is public.
#![tactic(auto)]

pub mod compare;
pub mod compare_sheets;
pub mod decode;
pub mod encode;
pub mod join;
pub mod list;
pub mod look_up;
pub mod measure;
pub mod stream;
