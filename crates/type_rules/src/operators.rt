//! The rules of operators.

use c_ast::Ty;
use c_ast::typed::{BinaryOp, LogicOp};

/// A member by its number, and its type behind an object.
#[derive(Drop)]
pub struct FoundMember {
    pub number: u32,
    pub ty: Ty,
}

/// What sort of operator one is.
#[derive(Clone, Copy)]
pub enum Sort {
    Decides,
    Compares,
    Sums,
    Subtracts,
    Computes,
}

/// An operator between two operands, by the name that it has in the typed tree.
#[derive(Clone, Copy)]
pub enum Operator {
    Logic(LogicOp),
    Binary(BinaryOp),
}
