//! Sums and products that fit. No objects take 2^64 bytes.

ghost use Rattle.std.specs.Prelude.{◌≡◌, ◌+◌, ◌*◌, IfOk};

use c_ast::Items;
use cv_word::NoMemory;
use std::alloc::Global;

pub fn total(a: u64, b: u64) -> Result<u64, NoMemory>
    ensures { IfOk result (λ n. n ≡ a + b) }
{
    match a.checked_add(b) {
        Some(n) => Ok(n),
        None => Err(NoMemory),
    }
}

pub fn product(a: u64, b: u64) -> Result<u64, NoMemory>
    ensures { IfOk result (λ n. n ≡ a * b) }
{
    match a.checked_mul(b) {
        Some(n) => Ok(n),
        None => Err(NoMemory),
    }
}

/// The number in 32 bits. What is within the limits has room there.
pub fn narrow(n: u64) -> Result<u32, NoMemory>
    ensures { IfOk result (λ m. m ≡ n) }
{
    if n < 4294967296 {
        Ok(n as u32)
    } else {
        Err(NoMemory)
    }
}

/// The numbers in 32 bits.
pub fn narrow_all(alloc: Global, numbers: &[u64]) -> Result<Items<u32>, NoMemory>
    ensures { IfOk result (λ all. all ≡ numbers.now) }
{
    let mut all = Items::new(alloc);
    for number in numbers {
        all.push(narrow(*number)?)?;
    }
    Ok(all)
}
