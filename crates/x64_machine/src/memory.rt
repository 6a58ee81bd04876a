//! The memory and the gates' world at the start.

ghost use Rattle.std.specs.Prelude.{◌≡◌, ◌+◌, ◌-◌, ◌*◌, ◌≤◌, length, IfOk};
ghost use Rattle.conf_verify.specs.Answer.{image_of};
ghost use Rattle.cv_word.specs.Memory.{items_at, start_memory};
ghost use Rattle.image_form.specs.Image.{IsGood};
ghost use Rattle.x64_machine.specs.Start.{start_heap, start_world};

use cv_word::NoMemory;
use image_form::Parts;
use std::alloc::Global;
use trusted_stubs::World;
use two_heaps::Heap;
use two_segments::Segments;

/// The memory at the start: the private segment begins with `private_start`.
pub(crate) fn first_segments<'a>(
    alloc: Global,
    parts: &Parts<'a>,
    private_start: &[u8],
) -> Result<Segments<'a>, NoMemory>
    requires good { IsGood (image_of parts.now) }
    requires most { 4096 + length private_start.now ≤ parts.now.seg_size }
    ensures { IfOk result (λ s. s ≡ start_memory (image_of parts.now).seg_size (image_of parts.now).code (image_of parts.now).public (items_at private_start.now 0 ((image_of parts.now).seg_size - 4096))) }
{
    Segments::new(
        alloc,
        parts.seg_size,
        parts.code,
        parts.public,
        private_start,
    )
}

/// The gates' world at the start.
pub(crate) fn first_world<'a>(
    alloc: Global,
    parts: &Parts<'a>,
    public_in: &'a [u8],
    private_in: &'a [u8],
) -> Result<World<'a>, NoMemory>
    requires { IsGood (image_of parts.now) }
    ensures { IfOk result (λ w. w ≡ start_world (image_of parts.now) public_in.now private_in.now) }
{
    let public_heap = first_heap(alloc, parts, parts.public.len())?;
    let private_heap = first_heap(alloc, parts, parts.private.len())?;
    World::new(
        alloc,
        parts.prefix,
        public_in,
        private_in,
        public_heap,
        private_heap,
    )
}

/// The heap of a segment that has so many start bytes.
fn first_heap(alloc: Global, parts: &Parts<'_>, count: usize) -> Result<Heap, NoMemory>
    requires good { IsGood (image_of parts.now) }
    requires room { 4096 + count + length parts.now.entries.items * parts.now.stack_size ≤ parts.now.seg_size }
    ensures { IfOk result (λ heap. heap ≡ start_heap (image_of parts.now) count) }
{
    let start = (4096 + count as u64 + 15) / 16 * 16;
    let stacks = parts.entries.len() as u64 * parts.stack_size as u64;
    Heap::new(alloc, start as u32, (parts.seg_size as u64 - stacks) as u32)
}
