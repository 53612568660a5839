// Requests and responses of the programs that are compared with the independent implementation, as frames of 32-bit words.
#![tactic(auto)]

pub mod frames;
pub mod requests;
