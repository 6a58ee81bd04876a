//! What each gate does.

ghost use Rattle.std.specs.Prelude.{◌≡◌, ℕ, ◌+◌, ◌≤◌, true, length};
ghost use Rattle.cv_word.specs.Words.{little_endian};
ghost use Rattle.cv_word.specs.Heap.{after_give, gives};
ghost use Rattle.cv_word.specs.Memory.{Memory, is_good, items_at};
ghost use Rattle.cv_word.specs.declared.gates.Gate.TheVariants as gate;
ghost use Rattle.cv_word.specs.GateStep.{Releasers, most_output, private_range, public_range, read_from, reads, work, writes};
ghost use Rattle.trusted_stubs.specs.Answers.{WorkAnswers};

use crate::world::World;
use cv_word::{Arguments, copy_items};
use two_heaps::{Heap, heap_law};
use two_segments::Segments;
use x64_decode::Seg;

/// PubIn: copies the next bytes of the public input, and answers how many there were.
#[tactic(auto, unfolding(cv_word::specs::GateStep::work))]
pub(crate) fn read_public(a: Arguments, segs: &mut Segments<'_>, world: &mut World<'_>) -> u64
    requires { is_good segs.old.size (public_range a.first a.second) ≡ true }
    ensures { (r : Releasers) → WorkAnswers (work gate.PubIn a (read_from segs.old (reads gate.PubIn a)) world.old r) result (writes gate.PubIn a) segs.old segs.new world.new r }
{
    let count = world.copied(a.second);
    segs.put_items(
        Seg::Fs,
        a.first,
        count,
        world.public_input,
        world.public_position,
    );
    world.public_position += count;
    count
}

/// PubOut: appends bytes to the public output, and answers how many.
#[tactic(auto, unfolding(cv_word::specs::GateStep::work))]
pub(crate) fn write_public(a: Arguments, segs: &Segments<'_>, world: &mut World<'_>) -> u64
    requires range { is_good segs.now.size (public_range a.first a.second) ≡ true }
    requires room { length world.old.visible.public_output + a.second ≤ most_output }
    ensures { (r : Releasers) → WorkAnswers (work gate.PubOut a (read_from segs.now (reads gate.PubOut a)) world.old r) result (writes gate.PubOut a) segs.now segs.now world.new r }
{
    let bytes = segs.range(Seg::Fs, a.first, a.second);
    world.public_output.append(bytes);
    a.second
}

/// PrivIn: copies the next bytes of the private input, zeros past its end.
#[tactic(auto, unfolding(cv_word::specs::GateStep::work))]
pub(crate) fn read_private(a: Arguments, segs: &mut Segments<'_>, world: &mut World<'_>) -> u64
    requires { is_good segs.old.size (private_range a.first a.second) ≡ true }
    ensures { (r : Releasers) → WorkAnswers (work gate.PrivIn a (read_from segs.old (reads gate.PrivIn a)) world.old r) result (writes gate.PrivIn a) segs.old segs.new world.new r }
{
    segs.put_items(
        Seg::Gs,
        a.first,
        a.second,
        world.private_input,
        world.private_position,
    );
    world.private_position = world.private_position.saturating_add(a.second);
    a.second
}

/// PrivOut: appends bytes to the private output, and answers how many.
#[tactic(auto, unfolding(cv_word::specs::GateStep::work))]
pub(crate) fn write_private(a: Arguments, segs: &Segments<'_>, world: &mut World<'_>) -> u64
    requires range { is_good segs.now.size (private_range a.first a.second) ≡ true }
    requires room { length world.old.private_output + a.second ≤ most_output }
    ensures { (r : Releasers) → WorkAnswers (work gate.PrivOut a (read_from segs.now (reads gate.PrivOut a)) world.old r) result (writes gate.PrivOut a) segs.now segs.now world.new r }
{
    let bytes = segs.range(Seg::Gs, a.first, a.second);
    world.private_output.append(bytes);
    a.second
}

/// PrivGet: answers the next 8 bytes of the private input, lowest first, zeros past its end.
#[tactic(auto, unfolding(cv_word::specs::GateStep::work))]
pub(crate) fn get_private(world: &mut World<'_>) -> u64
    ensures { (r : Releasers) (a : Arguments) (m : Memory) → WorkAnswers (work gate.PrivGet a (read_from m (reads gate.PrivGet a)) world.old r) result (writes gate.PrivGet a) m m world.new r }
{
    let word = word_at(world.private_input, world.private_position);
    world.private_position = world.private_position.saturating_add(8);
    word
}

/// PrivPut: appends 8 bytes to the private output, lowest first.
#[tactic(auto, unfolding(cv_word::specs::GateStep::work))]
pub(crate) fn put_private(a: Arguments, world: &mut World<'_>) -> u64
    requires { length world.old.private_output + 8 ≤ most_output }
    ensures { (r : Releasers) (m : Memory) → WorkAnswers (work gate.PrivPut a (read_from m (reads gate.PrivPut a)) world.old r) result (writes gate.PrivPut a) m m world.new r }
{
    world.private_output.append(&a.first.to_le_bytes());
    0
}

/// PubAlloc: takes a block of the public heap, and answers its offset or 0.
#[tactic(auto, unfolding(cv_word::specs::GateStep::work))]
pub(crate) fn alloc_public(a: Arguments, world: &mut World<'_>) -> u64
    ensures { (r : Releasers) (m : Memory) → WorkAnswers (work gate.PubAlloc a (read_from m (reads gate.PubAlloc a)) world.old r) result (writes gate.PubAlloc a) m m world.new r }
{
    world.public_heap.take(a.first) as u64
}

/// PrivAlloc: takes a block of the private heap, and answers its offset or 0.
#[tactic(auto, unfolding(cv_word::specs::GateStep::work))]
pub(crate) fn alloc_private(a: Arguments, world: &mut World<'_>) -> u64
    ensures { (r : Releasers) (m : Memory) → WorkAnswers (work gate.PrivAlloc a (read_from m (reads gate.PrivAlloc a)) world.old r) result (writes gate.PrivAlloc a) m m world.new r }
{
    world.private_heap.take(a.first) as u64
}

/// PubFree: gives a block of the public heap back, and answers 1, or 0 where none begins there.
#[tactic(auto, unfolding(cv_word::specs::GateStep::work))]
pub(crate) fn free_public(a: Arguments, world: &mut World<'_>) -> u64
    ensures { (r : Releasers) (m : Memory) → WorkAnswers (work gate.PubFree a (read_from m (reads gate.PubFree a)) world.old r) result (writes gate.PubFree a) m m world.new r }
{
    give_back(&mut world.public_heap, a.first) as u64
}

/// PrivFree: gives a block of the private heap back, and answers 1, or 0 where none begins there.
#[tactic(auto, unfolding(cv_word::specs::GateStep::work))]
pub(crate) fn free_private(a: Arguments, world: &mut World<'_>) -> u64
    ensures { (r : Releasers) (m : Memory) → WorkAnswers (work gate.PrivFree a (read_from m (reads gate.PrivFree a)) world.old r) result (writes gate.PrivFree a) m m world.new r }
{
    give_back(&mut world.private_heap, a.first) as u64
}

/// Gives the block back that begins at an offset. False where none does, as at 2^32 or more.
fn give_back(heap: &mut Heap, at: u64) -> bool
    ensures answer { result ≡ gives heap.old at }
    ensures after { heap.new ≡ after_give heap.old at }
{
    heap_law();
    if at > u32::MAX as u64 {
        let _holes = heap.holes();
        return false;
    }
    heap.give(at as u32)
}

/// The 8 bytes of a list at a place, lowest first, zeros past its end.
fn word_at(bytes: &[u8], at: u64) -> u64
    ensures { result ≡ little_endian (items_at bytes.now at 8) }
{
    let mut word = [0; 8];
    copy_items(&mut word, bytes, at);
    u64::from_le_bytes(word)
}
