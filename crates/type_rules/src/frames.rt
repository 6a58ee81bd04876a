//! What a statement has to know of the function around it.

use c_ast::Ty;

/// What a statement has to know of the function around it.
#[derive(Drop)]
pub struct Frame {
    /// What the function gives. None where a rule is broken in it.
    pub result: Option<Ty>,
    /// How many parameters it has.
    pub parameters: u32,
}
