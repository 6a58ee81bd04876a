//! What functions are declared as, and what may initialise a global.

use crate::parts::Form;
use c_ast::typed::Local;
use c_ast::{Items, Ty};
use name_scopes::Scope;

/// A header: the result, what the parameters' names mean, and the parameters that have types.
#[derive(Drop)]
pub struct HeaderType {
    pub ret: Option<Ty>,
    pub scope: Scope,
    pub typed: Items<Local>,
}

/// What may initialise a global.
#[derive(Clone, Copy)]
pub enum Start {
    /// A number or a character, or one after `-`.
    Amount { form: Form, value: u64 },
    /// A string by its number.
    Characters { string: u32 },
    Other,
}
