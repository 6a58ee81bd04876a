//! The cores, and how they stand at the start.

ghost use Rattle.std.specs.Prelude.{◌≡◌, ◌<◌, ◌≤◌, length, IfOk};
ghost use Rattle.conf_verify.specs.Answer.{image_of};
ghost use Rattle.x64_machine.specs.Start.{start_registers, start_cores};

use cv_word::{CODE_BASE, Flags, NoMemory, PUBLIC_BASE, Registers};
use image_form::Parts;
use std::alloc::Global;
use x64_decode::Reg;

/// The flags at the start.
const NO_FLAGS: Flags = Flags {
    zf: false,
    sf: false,
    cf: false,
    of: false,
};

/// A core.
#[derive(Drop)]
pub struct Core {
    /// Its registers.
    pub registers: Registers,
    /// Whether it has ended while the run goes on.
    pub ended: bool,
}

/// The cores at the start, one for each entry of the image.
pub(crate) fn first_cores(alloc: Global, parts: &Parts<'_>) -> Result<Vec<Core>, NoMemory>
    ensures cores { IfOk result (λ cores. cores.items ≡ start_cores (image_of parts.now) 0 (image_of parts.now).entries) }
    ensures count { IfOk result (λ cores. length cores.items ≡ length parts.now.entries.items) }
    ensures few { IfOk result (λ cores. length cores.items ≤ 8) }
{
    let entries = parts.entries.as_slice();
    let mut cores = Vec::with_capacity(alloc, entries.len())?;
    for i in 0..entries.len() {
        cores.push(Core {
            registers: first_registers(parts, i, entries[i]),
            ended: false,
        })?;
    }
    Ok(cores)
}

/// The registers of core `i` at the start: all 0 but rsp, which is the end of the core's stack, and the program counter.
fn first_registers(parts: &Parts<'_>, i: usize, entry: u32) -> Registers
    requires { i < 8 }
    ensures { result ≡ start_registers (image_of parts.now) i entry }
{
    let mut r = [0; 16];
    let above = i as u64 * parts.stack_size as u64;
    r[Reg::Rsp as usize] = PUBLIC_BASE + (parts.seg_size as u64).saturating_sub(above);
    Registers {
        r,
        flags: NO_FLAGS,
        pc: CODE_BASE + entry as u64,
    }
}
