//! Rows of sources: the constraints of each as text, and what is solved for it as text.

ghost use Rattle.std.specs.Prelude.{All, IsTrue, ◌↔◌};
ghost use Rattle.qual_solve.specs.Assignments.{IsEnd, IsOver};

use c_ast::typed::Typed;
use c_ast::{Program, Qual};
use c_lexer::lex;
use c_parser::parse;
use c_types::type_program;
use cv_word::Taint;
use qual_rules::constraints;
use qual_solve::{Chain, Constraint, SolveError, solve};
use std::alloc::Global;
use std::fmt::Write;
use std::process::Abort;
use std::test::Fail;
use type_text::local_lines;

fn program_of(rt: &impl Abort, alloc: Global, source: &[u8]) -> Result<Program, Fail> {
    assert!(rt;
        source.len() < 0x1_0000_0000,
        "a source has fewer than 2^32 bytes"
    );
    let tokens = lex(alloc, source)?;
    let program = parse(alloc, tokens.as_slice(), source)?;
    Ok(program)
}

fn write_taint(out: &mut String, taint: Taint) -> Result<(), Fail> {
    match taint {
        Taint::Pub => write!(out, "pub")?,
        Taint::Priv => write!(out, "priv")?,
    }
    Ok(())
}

fn write_end(out: &mut String, end: Qual) -> Result<(), Fail> {
    match end {
        Qual::Fixed(taint) => write_taint(out, taint),
        Qual::Var(number) => {
            write!(out, "?{number}")?;
            Ok(())
        }
    }
}

/// `LEFT<=RIGHT@PLACE`. `?0` is the first qualifier variable.
fn write_constraint(out: &mut String, constraint: &Constraint) -> Result<(), Fail> {
    write_end(out, constraint.from)?;
    write!(out, "<=")?;
    write_end(out, constraint.to)?;
    write!(out, "@{}", constraint.place)?;
    Ok(())
}

fn write_list(out: &mut String, list: &[Constraint]) -> Result<(), Fail> {
    for (number, constraint) in list.iter().enumerate() {
        if number > 0 {
            write!(out, " ")?;
        }
        write_constraint(out, constraint)?;
    }
    Ok(())
}

/// Checks the whole list of constraints of each row's source.
pub fn check_lists(rt: &impl Abort, alloc: Global, rows: &[(&str, &str)]) -> Result<(), Fail> {
    for row in rows {
        let (source, want) = *row;
        let program = program_of(rt, alloc, source.as_bytes())?;
        let typed = type_program(alloc, &program)?;
        let list = constraints(alloc, &typed)?;
        let mut out = String::new(alloc);
        write_list(&mut out, list.as_slice())?;
        assert_eq!(rt; out.as_str(), want, "{}", source);
    }
    Ok(())
}

/// Whether an end is a constant or one of so many variables.
fn is_end(vars: u32, end: Qual) -> bool
    ensures { IsTrue result ↔ IsEnd vars end }
{
    match end {
        Qual::Fixed(_) => true,
        Qual::Var(variable) => variable < vars,
    }
}

/// Whether both ends of a constraint are.
fn is_over(vars: u32, constraint: &Constraint) -> bool
    ensures { IsTrue result ↔ IsOver vars constraint.now }
{
    is_end(vars, constraint.from) && is_end(vars, constraint.to)
}

/// Whether each end in a list is.
fn are_over(vars: u32, list: &[Constraint]) -> bool
    ensures { IsTrue result ↔ All (IsOver vars) list.now }
{
    list.iter().all(|constraint| is_over(vars, constraint))
}

/// The lines of the locals, each with its line feed.
fn write_lines(
    alloc: Global,
    out: &mut String,
    program: &Program,
    typed: &Typed,
    taints: &[Taint],
) -> Result<(), Fail> {
    let lines = local_lines(alloc, program.names.as_slice(), typed, taints)?;
    for byte in lines.as_slice() {
        out.push(*byte as char)?;
    }
    Ok(())
}

fn write_place(out: &mut String, list: &[Constraint], number: u64) -> Result<(), Fail> {
    match list.get(number as usize) {
        Some(constraint) => write!(out, " {}", constraint.place)?,
        None => write!(out, " none")?,
    }
    Ok(())
}

/// `leak at PLACE chain PLACES`
fn write_leak(out: &mut String, list: &[Constraint], at: u64, chain: &Chain) -> Result<(), Fail> {
    write!(out, "leak at")?;
    write_place(out, list, at)?;
    write!(out, " chain")?;
    for number in chain.as_slice() {
        write_place(out, list, *number)?;
    }
    Ok(())
}

fn write_answer(
    rt: &impl Abort,
    alloc: Global,
    out: &mut String,
    program: &Program,
) -> Result<(), Fail> {
    let typed = type_program(alloc, program)?;
    let list = constraints(alloc, &typed)?;
    assert!(rt;
        are_over(typed.vars, &list),
        "each variable is one of the tree's"
    );
    match solve(alloc, typed.vars, &list) {
        Ok(taints) => write_lines(alloc, out, program, &typed, taints.as_slice()),
        Err(SolveError::Leak { at, chain }) => write_leak(out, list.as_slice(), at, &chain),
        Err(SolveError::NoMemory) => Err(Fail::from(SolveError::NoMemory)),
    }
}

/// Checks what is solved for each row's source: the lines of its locals, or a leak.
pub fn check_answers(rt: &impl Abort, alloc: Global, rows: &[(&str, &str)]) -> Result<(), Fail> {
    for row in rows {
        let (source, want) = *row;
        let program = program_of(rt, alloc, source.as_bytes())?;
        let mut out = String::new(alloc);
        write_answer(rt, alloc, &mut out, &program)?;
        assert_eq!(rt; out.as_str(), want, "{}", source);
    }
    Ok(())
}
