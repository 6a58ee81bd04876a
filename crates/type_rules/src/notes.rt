//! What is noted on the way through a program, in source order.

ghost use Rattle.std.specs.Prelude.{◌≡◌, ◌+◌, IfOk, OnOk};

use crate::rules::Fault;
use c_ast::typed::Local;
use c_ast::{Items, Ty};
use cv_word::NoMemory;
use std::alloc::Global;

/// What is noted on the way through a program, in source order.
#[derive(Drop)]
pub struct Notes {
    /// The rules that are broken.
    pub faults: Items<Fault>,
    /// The strings of expressions, by their numbers in the program.
    pub strings: Items<u32>,
    /// The locals of the function so far.
    pub locals: Items<Local>,
    /// How many qualifier variables there are.
    pub vars: u32,
}

impl Notes {
    ghost use Rattle.type_rules.specs.Notes as def;

    /// Nothing is noted. Takes no memory.
    pub fn new(alloc: Global) -> Notes
        ensures { result ≡ def.none_yet }
    {
        Notes {
            faults: Items::new(alloc),
            strings: Items::new(alloc),
            locals: Items::new(alloc),
            vars: 0,
        }
    }

    /// A rule is broken.
    pub fn broken(&mut self, rule: u8, place: u32) -> Result<(), NoMemory>
        ensures { OnOk result (self.new ≡ def.broken rule place self.old) }
    {
        self.faults.push(Fault { rule, place })?;
        Ok(())
    }

    /// A rule is broken if the test holds.
    pub fn broken_if(&mut self, test: bool, rule: u8, place: u32) -> Result<(), NoMemory>
        ensures { OnOk result (self.new ≡ def.broken_if test rule place self.old) }
    {
        if test {
            self.broken(rule, place)?;
        }
        Ok(())
    }

    /// A rule is broken unless the test holds.
    pub fn unless(&mut self, test: bool, rule: u8, place: u32) -> Result<(), NoMemory>
        ensures { OnOk result (self.new ≡ def.unless test rule place self.old) }
    {
        if !test {
            self.broken(rule, place)?;
        }
        Ok(())
    }

    /// A string of an expression, by its number in the program.
    pub fn with_string(&mut self, string: u32) -> Result<(), NoMemory>
        ensures { OnOk result (self.new ≡ def.with_string string self.old) }
    {
        self.strings.push(string)?;
        Ok(())
    }

    /// A local, which is left out if it has no type.
    pub fn with_local(&mut self, name: u32, place: u32, ty: Option<Ty>) -> Result<(), NoMemory>
        ensures { OnOk result (self.new ≡ def.with_local name place ty self.old) }
    {
        if let Some(ty) = ty {
            self.locals.push(Local { name, place, ty })?;
        }
        Ok(())
    }
}

/// A sum of counts. More than 2^32 of anything have no room.
pub fn counted(a: u32, b: u32) -> Result<u32, NoMemory>
    ensures { IfOk result (λ n. n ≡ a + b) }
{
    match a.checked_add(b) {
        Some(sum) => Ok(sum),
        None => Err(NoMemory),
    }
}

/// A count. More than 2^32 of anything have no room.
pub fn count(n: usize) -> Result<u32, NoMemory>
    ensures { IfOk result (λ m. m ≡ n) }
{
    if n < 4294967296 {
        Ok(n as u32)
    } else {
        Err(NoMemory)
    }
}
