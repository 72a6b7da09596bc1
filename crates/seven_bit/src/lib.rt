// Numbers below 2^32 in groups of seven bits: each read exactly where its shortest form stands.
#![tactic(auto)]

pub mod byte_list;
pub mod encode;
pub mod fault;
pub mod read;
pub mod split;
