//! Which registers and flags may be private before each item of a listing.
//!
//! A label says for each of 17 names, the 16 registers and the flags, whether it may hold what depends on private data.
//! [`label_code`] answers the least labels that meet the flow rules: every labelling that meets them has at least these
//! labels, so a rule that is broken under them is broken under every labelling. [`item_numbers`] finds the item at a place
//! of the code among those of one block of 8 bytes.
#![tactic(auto)]

mod calls;
mod flow;
mod label;
mod places;
mod worklist;

pub use calls::{call_target, callee, is_call};
pub use flow::{Labels, jump_target, label_code, label_items};
pub use label::{
    Label, branches_on_private, divides_private, entry_label, has_private_address,
    leaves_rsp_private, left_by, passes_private, return_label, returns_private, stores_private,
};
pub use places::{ItemNumbers, item_numbers};

#[cfg(test)]
mod tests;
