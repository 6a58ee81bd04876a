//! What is known of a file so far.

use crate::known::Known;
use crate::notes::Notes;
use c_ast::Items;
use c_ast::typed::{Function, Global};
use name_scopes::Scope;

/// The functions of a file, and the structs that are known at its end.
#[derive(Drop)]
pub struct Functions {
    pub known: Known,
    pub definitions: Scope,
    pub prototypes: Scope,
}

/// What is known of a file so far.
#[derive(Drop)]
pub struct File {
    pub known: Known,
    /// The objects and the functions with a body.
    pub defined: Scope,
    pub prototypes: Scope,
    pub globals: Items<Global>,
    pub functions: Items<Function>,
    pub notes: Notes,
}
