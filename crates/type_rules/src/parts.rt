//! What is known of a part of an expression.

use c_ast::Expr;

/// What a part is by its form.
#[derive(Clone, Copy, Debug, PartialEq, Eq)]
pub enum Form {
    /// A number that is written as 0.
    Zero,
    /// The name of an object, `*e`, `e[i]`, `e.m` or `p->m`.
    Place,
    Value,
}

/// A part of an expression.
#[derive(Drop)]
pub struct Part {
    /// Its first byte.
    pub place: u32,
    pub form: Form,
    /// Its node with its type. A part in which a rule is broken has none.
    pub node: Option<Expr>,
}
