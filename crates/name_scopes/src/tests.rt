//! Hiding and forgetting by hand, a long run beside a plain walk, many names, and many scopes.

use super::*;
use std::process::Abort;
use std::test::Fail;

/// A global with a number and no type.
fn declare(scope: &mut Scope, name: u32, number: u32) -> Result<(), Fail> {
    scope.declare(name, Meaning::Global { number }, None)?;
    Ok(())
}

/// The number of the global that a name means.
fn number_of(scope: &Scope, name: u32) -> Option<u32> {
    match scope.find(name) {
        Some(entry) => match entry.meaning {
            Meaning::Global { number } => Some(number),
            _ => None,
        },
        None => None,
    }
}

/// The name of the entry at a position.
fn name_at(scope: &Scope, at: usize) -> Option<u32> {
    match scope.get(at) {
        Some(entry) => Some(entry.name),
        None => None,
    }
}

#[test]
fn hides_and_forgets(rt: HostRuntime) -> Result<(), Fail> {
    let mut scope = Scope::new(rt.alloc());
    assert!(rt; !scope.declares(3));
    declare(&mut scope, 3, 10)?;
    declare(&mut scope, 0, 11)?;
    declare(&mut scope, 3, 12)?;
    assert_eq!(rt; number_of(&scope, 3), Some(12));
    assert_eq!(rt; number_of(&scope, 0), Some(11));
    assert_eq!(rt; number_of(&scope, 1), None);
    assert_eq!(rt; number_of(&scope, 4), None);
    assert_eq!(rt; name_at(&scope, 1), Some(0));
    assert_eq!(rt; name_at(&scope, 2), Some(3));
    assert_eq!(rt; name_at(&scope, 3), None);
    assert!(rt; scope.declares_since(2, 3));
    assert!(rt; !scope.declares_since(2, 0));
    assert!(rt; !scope.declares_since(3, 3));
    scope.forget(4);
    assert_eq!(rt; scope.len(), 3);
    scope.forget(2);
    assert_eq!(rt; scope.len(), 2);
    assert_eq!(rt; number_of(&scope, 3), Some(10));
    assert!(rt; !scope.declares_since(1, 3));
    declare(&mut scope, 5, 13)?;
    scope.forget(0);
    assert_eq!(rt; scope.len(), 0);
    for name in 0..7 {
        assert!(rt; !scope.declares(name));
    }
    Ok(())
}

/// The number of the last pair of a name.
fn walk(pairs: &[(u32, u32)], name: u32) -> Option<u32> {
    let mut found = None;
    for pair in pairs {
        if pair.0 == name {
            found = Some(pair.1);
        }
    }
    found
}

/// Whether a pair at a place or behind it has a name.
fn is_behind(pairs: &[(u32, u32)], start: usize, name: u32) -> bool {
    for (place, pair) in pairs.iter().enumerate() {
        if place >= start && pair.0 == name {
            return true;
        }
    }
    false
}

fn agrees(rt: &impl Abort, scope: &Scope, pairs: &[(u32, u32)], start: usize) {
    assert_eq!(rt; scope.len(), pairs.len());
    for name in 0..9 {
        let wanted = walk(pairs, name);
        assert_eq!(rt; number_of(scope, name), wanted, "name {name}");
        assert_eq!(rt; scope.declares(name), wanted.is_some(), "name {name}");
        assert_eq!(rt;
            scope.declares_since(start, name),
            is_behind(pairs, start, name),
            "name {name}"
        );
    }
}

/// 2,000 steps, of which the words come from one seed. One step of four forgets.
#[test]
fn finds_like_a_walk(rt: HostRuntime) -> Result<(), Fail> {
    let mut scope = Scope::new(rt.alloc());
    let mut pairs = Vec::new(rt.alloc());
    let mut seed: u64 = 20;
    for number in 0..2000u32 {
        seed = seed
            .wrapping_mul(6364136223846793005)
            .wrapping_add(1442695040888963407);
        let word = seed >> 33;
        let start = (word / 32 % 40) as usize;
        if word % 4 == 0 {
            scope.forget(start);
            pairs.truncate(start);
        } else {
            let name = (word / 4 % 8) as u32;
            declare(&mut scope, name, number)?;
            pairs.push((name, number))?;
        }
        agrees(&rt, &scope, &pairs, start);
    }
    Ok(())
}

/// Each name is found a hundred times, for which a walk over all names would go 40,000,000,000 steps.
#[test]
fn finds_20000_names(rt: HostRuntime) -> Result<(), Fail> {
    let mut scope = Scope::new(rt.alloc());
    for name in 0..20_000u32 {
        declare(&mut scope, name, name)?;
    }
    for _ in 0..100u32 {
        for name in 0..20_000u32 {
            assert_eq!(rt; number_of(&scope, name), Some(name));
            assert!(rt; scope.declares_since(name as usize, name));
            assert!(rt; !scope.declares_since(name as usize + 1, name));
        }
        assert!(rt; !scope.declares(20_000));
    }
    scope.forget(10_000);
    assert!(rt; scope.declares(9_999));
    assert!(rt; !scope.declares(10_000));
    Ok(())
}

/// A name is declared 190 times, each time with another name behind it.
#[test]
fn hides_190_deep(rt: HostRuntime) -> Result<(), Fail> {
    let mut scope = Scope::new(rt.alloc());
    for depth in 0..190u32 {
        declare(&mut scope, 7, depth)?;
        declare(&mut scope, depth + 8, depth)?;
        assert_eq!(rt; number_of(&scope, 7), Some(depth));
    }
    for depth in (0..190u32).rev() {
        assert_eq!(rt; number_of(&scope, 7), Some(depth));
        assert_eq!(rt; number_of(&scope, depth + 8), Some(depth));
        scope.forget(2 * depth as usize);
        assert!(rt; !scope.declares(depth + 8));
    }
    assert!(rt; !scope.declares(7));
    Ok(())
}

/// 2,000 scopes of three names each are kept. Room up to the largest name would be 2,000,000,000 positions.
#[test]
fn keeps_2000_scopes(rt: HostRuntime) -> Result<(), Fail> {
    let mut scopes = Vec::new(rt.alloc());
    for number in 0..2000u32 {
        let mut scope = Scope::new(rt.alloc());
        let first = 1_000_000 + number;
        declare(&mut scope, first, number)?;
        declare(&mut scope, first + 1, number)?;
        declare(&mut scope, first + 2, number)?;
        assert_eq!(rt; number_of(&scope, first), Some(number));
        assert_eq!(rt; number_of(&scope, first + 2), Some(number));
        assert!(rt; !scope.declares(first + 3));
        assert!(rt; !scope.declares(number));
        scopes.push(scope)?;
    }
    Ok(())
}
