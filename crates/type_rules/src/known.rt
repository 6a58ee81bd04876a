//! What is known where a part of a program stands.

use c_ast::typed::StructDef;
use name_scopes::Scope;
use sqlite_items::Items;
use type_shapes::Extent;

/// What is known where a part of a program stands.
#[derive(Drop)]
pub struct Known {
    /// The bytes of each string of the program with its zero byte.
    pub string_sizes: Items<u32>,
    /// The names of structs. Inside of a definition its own name is the last of them.
    pub tags: Scope,
    /// The structs that are defined. One with a fault in a member lacks it.
    pub structs: Items<StructDef>,
    /// The members of each of them, those with a fault among them.
    pub fields: Items<Scope>,
    /// What each of them takes. One with a fault in it takes nothing.
    pub extents: Items<Extent>,
    /// The objects, functions and gates, parameters and locals. Whether a name is declared twice in the file is asked
    /// of the file's own lists, so that a gate's name is free.
    pub scope: Scope,
}
