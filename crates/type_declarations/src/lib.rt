//! Structs, headers of functions, and the gates.
//!
//! Each function is the rule of its name in `type_rules/specs/Declarations.antt` or `Gates.antt`.
#![tactic(auto)]

mod gates;
mod headers;
mod locals;
mod structs;

pub use gates::gates_in;
pub use headers::{function_of, header_type};
pub use structs::declare_struct;
