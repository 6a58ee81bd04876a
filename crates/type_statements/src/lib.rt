//! Statements, blocks and locals: the rules that are asked of them, and their nodes.
//!
//! [`block_items`] goes over a block once, in source order. What the block declares is forgotten at its end.
#![tactic(auto)]

mod locals;
mod nodes;
mod returns;
mod statements;

pub use statements::block_items;
