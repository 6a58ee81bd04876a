//! Types and their qualifiers.

use cv_word::Taint;
use sqlite_items::{Boxed, Items};

/// What may be known of a value: written, or a variable that is solved for.
#[derive(Clone, Copy, Debug, PartialEq, Eq)]
pub enum Qual {
    Fixed(Taint),
    Var(u32),
}

/// A type. The qualifier of an array is its element's.
#[derive(Debug, Drop)]
pub enum Ty {
    /// `char`, `int` and `long`: 1, 4 and 8 bytes.
    Int { width: u8, q: Qual },
    Void,
    /// By its position in the list of structs.
    Struct { id: u32, q: Qual },
    Ptr { to: Boxed<Ty>, q: Qual },
    Array { elem: Boxed<Ty>, len: u32 },
    Fun { ret: Boxed<Ty>, params: Items<Ty> },
}
