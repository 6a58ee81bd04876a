//! Constraints.

use c_ast::Qual;

/// Where the left end is private, the right end is to be private too.
#[derive(Clone, Copy, Debug, PartialEq, Eq)]
pub struct Constraint {
    /// The left end: what flows.
    pub from: Qual,
    /// The right end: where it flows to.
    pub to: Qual,
    /// The offset in the source, in bytes. No answer depends on it.
    pub place: u32,
}
