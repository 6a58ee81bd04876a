//! The rules of operators: what each asks of operands that have types, and the node that it gives.
//!
//! Each function is the rule of its name in `type_rules/specs/Operators.antt`: it answers the node, and notes where
//! the rule is broken.
#![tactic(auto)]

mod calls;
mod fitting;
mod infix;
mod members;
mod prefix;
mod values;

pub use calls::{call_of, fitted_at, name_form, name_node, signature_at};
pub use fitting::fits;
pub use infix::between;
pub use members::{arrowed, dotted, index};
pub use prefix::{address, computed, followed, tested};
pub use values::{assign, cast, choice, condition};
