//! The typing rules by number, and where one is broken.

/// A name is declared twice in a scope, or a struct or a member twice. One prototype and one definition are one.
pub const K1: u8 = 1;
/// A name, a struct or a member isn't known.
pub const K2: u8 = 2;
/// An object, parameter, member, element, pointee or `sizeof` is void or a struct that isn't defined earlier, a
/// parameter is an array, a length is 0 or too great, or an array or a struct is too large. A pointee may be the struct
/// that is being defined.
pub const K3: u8 = 3;
/// An operand isn't an integer, and no exception holds.
pub const K4: u8 = 4;
/// The left of `=` isn't a place of integer or pointer type, or the operand of `&` isn't a place.
pub const K5: u8 = 5;
/// A value doesn't fit.
pub const K6: u8 = 6;
/// A callee is no function, no gate and no pointer to a function, the number of arguments differs, or a gate's name
/// isn't called.
pub const K7: u8 = 7;
/// `return` with a value in a void function, or without one elsewhere.
pub const K8: u8 = 8;
/// `break` or `continue` outside a loop.
pub const K9: u8 = 9;
/// `*`, `[]` or `->` on no pointer or array, or on a pointer to a function; `.` on no struct.
pub const K10: u8 = 10;
/// A prototype differs from its definition, qualifiers included, or has none.
pub const K11: u8 = 11;
/// A global's initialiser isn't a number, a character, one of them after `-`, or for an array of `char` a string that fits
/// with its zero byte; a local array or struct has an initialiser.
pub const K12: u8 = 12;
/// A member's outermost level is private, or a struct is a parameter or a result by value.
pub const K13: u8 = 13;

/// A rule that is broken at a place.
#[derive(Clone, Copy, Debug, PartialEq, Eq)]
pub struct Fault {
    pub rule: u8,
    pub place: u32,
}
