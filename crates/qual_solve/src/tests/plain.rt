//! A plain search over all assignments of three variables, and over all chains of five numbers at most.

ghost use Rattle.std.specs.Prelude.{◌≤◌};

use super::{Constraint, PRIVATE, PUBLIC, Qual, Taint};

/// How many assignments three variables have.
pub const ASSIGNMENTS: u8 = 8;

fn taint(bit: u8) -> Taint {
    if bit == 1 { Taint::Priv } else { Taint::Pub }
}

/// The assignment with this code, a bit for each variable.
fn assignment(code: u8) -> [Taint; 3] {
    [taint(code % 2), taint(code / 2 % 2), taint(code / 4 % 2)]
}

fn is_private(assignment: [Taint; 3], end: Qual) -> bool {
    match end {
        Qual::Fixed(taint) => taint == Taint::Priv,
        Qual::Var(0) => assignment[0] == Taint::Priv,
        Qual::Var(1) => assignment[1] == Taint::Priv,
        Qual::Var(_) => assignment[2] == Taint::Priv,
    }
}

fn is_met(assignment: [Taint; 3], constraint: &Constraint) -> bool {
    !is_private(assignment, constraint.from) || is_private(assignment, constraint.to)
}

fn is_satisfied(assignment: [Taint; 3], list: &[Constraint]) -> bool {
    for constraint in list {
        if !is_met(assignment, constraint) {
            return false;
        }
    }
    true
}

/// Whether all constraints but the closing ones are met.
fn is_open_met(assignment: [Taint; 3], list: &[Constraint]) -> bool {
    for constraint in list {
        if constraint.to != PUBLIC && !is_met(assignment, constraint) {
            return false;
        }
    }
    true
}

fn is_forced(list: &[Constraint], end: Qual) -> bool {
    for code in 0..ASSIGNMENTS {
        if is_open_met(assignment(code), list) && !is_private(assignment(code), end) {
            return false;
        }
    }
    true
}

/// The number of the first closing constraint whose left end is forced.
pub fn first_broken(list: &[Constraint]) -> Option<usize> {
    for (number, constraint) in list.iter().enumerate() {
        if constraint.to == PUBLIC && is_forced(list, constraint.from) {
            return Some(number);
        }
    }
    None
}

/// Whether a variable is private in each assignment that satisfies the list.
pub fn is_always_private(list: &[Constraint], variable: u32) -> bool {
    for code in 0..ASSIGNMENTS {
        if is_satisfied(assignment(code), list)
            && !is_private(assignment(code), Qual::Var(variable))
        {
            return false;
        }
    }
    true
}

/// Whether some assignment satisfies the list.
pub fn is_satisfiable(list: &[Constraint]) -> bool {
    for code in 0..ASSIGNMENTS {
        if is_satisfied(assignment(code), list) {
            return true;
        }
    }
    false
}

/// Whether the numbers lead on from the constant private, and end with `at`.
fn is_chain(list: &[Constraint], numbers: &[u64], at: u64) -> bool {
    let mut end = PRIVATE;
    for number in numbers {
        match list.get(*number as usize) {
            Some(constraint) if constraint.from == end => end = constraint.to,
            _ => return false,
        }
    }
    numbers.last() == Some(&at)
}

/// The list of numbers with this code, which follows the order of a dictionary.
fn numbers(code: u32) -> [u64; 5] {
    [
        (code / 625 % 5) as u64,
        (code / 125 % 5) as u64,
        (code / 25 % 5) as u64,
        (code / 5 % 5) as u64,
        (code % 5) as u64,
    ]
}

/// How many lists of so many numbers below five there are.
fn chains_of(length: usize) -> u32
    ensures { result ≤ 3125 }
{
    match length {
        0 => 1,
        1 => 5,
        2 => 25,
        3 => 125,
        4 => 625,
        _ => 3125,
    }
}

/// How many codes share their first so many numbers.
fn codes_from(length: usize) -> u32
    ensures { result ≤ 3125 }
{
    match length {
        0 => 3125,
        1 => 625,
        2 => 125,
        3 => 25,
        4 => 5,
        _ => 1,
    }
}

/// The first chain to `at` with so many numbers.
fn chain_of(list: &[Constraint], at: u64, length: usize) -> Option<[u64; 5]>
    requires { length ≤ 5 }
{
    for front in 0..chains_of(length) {
        let found = numbers(front * codes_from(length));
        if is_chain(list, &found[..length], at) {
            return Some(found);
        }
    }
    None
}

/// Whether a chain is the shortest to `at`, and of those the first in dictionary order.
pub fn is_best_chain(list: &[Constraint], at: u64, chain: &[u64]) -> bool {
    for length in 0..6usize {
        if let Some(found) = chain_of(list, at, length) {
            return &found[..length] == chain;
        }
    }
    false
}
