//! The trees of a C source: `Program` as it is written, and `Typed` with every name looked up.
//!
//! Contracts see each tree as plain data: a `Boxed` part is the part, `Items` are their list, and a
//! `Text` is its list of bytes. Each node has a place, an offset in the source in bytes.
#![tactic(auto)]

pub mod program;
mod qualifiers;
mod text;
pub mod typed;

pub use program::Program;
pub use qualifiers::{Qual, Ty};
pub use sqlite_items::{Boxed, Items};
pub use text::Text;
pub use typed::{Expr, ExprKind, Function, Stmt, StmtKind, Typed};
