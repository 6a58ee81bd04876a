//! A listing as text: a line for each item.
//!
//! `listing_text` answers the lines of a listing, each with the item's flat address, its bytes and its
//! text, exactly as `specs/ListingText.antt` says it: a row for each instruction of the table. Want of
//! memory is the one error. `listing_law` says that the items which `code_sweep::sweep` answers meet
//! the condition on them.
#![tactic(auto)]

mod instruction;
mod law;
mod line;
mod operand;

pub use law::listing_law;
pub use line::listing_text;

#[cfg(test)]
mod tests;
