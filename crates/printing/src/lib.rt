// The printed text of a problem file: what is worked out of it through the calls, and its text part after part.
#![tactic(auto)]

pub mod parts;
pub mod text;
pub mod work;
