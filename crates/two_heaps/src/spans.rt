//! Lists of holes or of blocks, by offset.

ghost use Rattle.std.specs.Prelude.{◌≡◌, ◌+◌, ◌^◌, ◌<◌, ◌≤◌, ◌∷◌, ◌++◌, [], ℕ, length, take, drop, nat_le, position, insert, vec_len, vec_capacity, All};
ghost use Rattle.std.specs.List.{AllWithin};
ghost use Rattle.cv_word.specs.Heap.{end_of, starting_below, starting_above, ending_below, free_from, free_to, hole_between, replaced_at, merged};
ghost use Rattle.two_heaps.specs.Kept.{Rises, Avoids, IsPlace, MayJoin, StandsAt};

use crate::hole::{Block, Hole};

/// The place of the first hole that has so many bytes.
pub fn first_fit(holes: &[Hole], size: u32) -> Option<usize>
    ensures { result ≡ position (λ hole. nat_le size hole.len) holes.now }
{
    holes.iter().position(|hole| hole.len >= size)
}

/// How many of the spans begin below an offset.
pub fn place_of(spans: &[Hole], at: u32) -> usize
    requires { Rises 0 0 spans.now }
    ensures { result ≡ length (starting_below at spans.now) }
{
    spans.partition_point(|span| span.at < at)
}

/// Puts a span at a place of a list that has room for one more.
pub fn insert(spans: &mut Vec<Hole>, place: usize, span: Hole)
    requires within { place ≤ vec_len spans.old }
    requires room { vec_len spans.old < vec_capacity spans.old }
    ensures items { spans.new.items ≡ insert spans.old.items place span }
    ensures capacity { vec_capacity spans.new ≡ vec_capacity spans.old }
{
    match spans.insert(place, span) {
        Ok(()) => {}
        Err(_) => unreachable!(),
    }
}

/// Adds the hole from an offset up to another at the end, or none where no byte lies between.
pub fn push_between(holes: &mut Vec<Hole>, from: u32, to: u32)
    requires { vec_len holes.old < vec_capacity holes.old }
    ensures items { holes.new.items ≡ holes.old.items ++ hole_between from to }
    ensures capacity { vec_capacity holes.new ≡ vec_capacity holes.old }
{
    if from < to {
        holes.push_reserved(Hole {
            at: from,
            len: to - from,
        });
    }
}

/// Puts one span in place of none, one or two, from the place `first` up to `last`.
pub fn replace(spans: &mut Vec<Hole>, first: usize, last: usize, span: Hole)
    requires up { first ≤ last }
    requires few { last ≤ first + 2 }
    requires within { last ≤ vec_len spans.old }
    requires room { vec_len spans.old + first < vec_capacity spans.old + last }
    ensures items { spans.new.items ≡ take first spans.old.items ++ span ∷ drop last spans.old.items }
    ensures capacity { vec_capacity spans.new ≡ vec_capacity spans.old }
{
    if first == last {
        insert(spans, first, span);
        return;
    }
    spans[first] = span;
    if last - first == 2 {
        spans.remove(first + 1);
    }
}

/// Takes so many bytes from the front of the hole at a place.
pub fn cut(holes: &mut Vec<Hole>, place: usize, hole: Hole, size: u32)
    requires stands { StandsAt holes.old.items place hole }
    requires holds { size ≤ hole.len }
    requires small { end_of hole < 2 ^ 32 }
    ensures items { holes.new.items ≡ take place holes.old.items ++ (hole_between (hole.at + size) (end_of hole) ++ drop (place + 1) holes.old.items) }
    ensures capacity { vec_capacity holes.new ≡ vec_capacity holes.old }
{
    if size == hole.len {
        holes.remove(place);
    } else {
        holes[place] = Hole {
            at: hole.at + size,
            len: hole.len - size,
        };
    }
}

/// Puts a block among the blocks, none of which begins where it does.
pub fn place_block(blocks: &mut Vec<Block>, block: Block)
    requires rises { Rises 0 0 blocks.old.items }
    requires avoids { Avoids block blocks.old.items }
    requires some { 0 < block.len }
    requires room { vec_len blocks.old < vec_capacity blocks.old }
    ensures items { blocks.new.items ≡ replaced_at block.at (block ∷ []) blocks.old.items }
    ensures capacity { vec_capacity blocks.new ≡ vec_capacity blocks.old }
{
    let place = place_of(blocks, block.at);
    insert(blocks, place, block);
}

/// For an offset below which so many holes begin: how many end below it, and where the hole begins that ends there, or
/// else the offset.
fn hole_before(holes: &[Hole], place: usize, at: u32) -> (usize, u32)
    requires rises { Rises 1 0 holes.now }
    requires place { IsPlace 1 at holes.now place }
    requires apart { AllWithin (λ hole. end_of hole ≤ at) holes.now 0 place }
    ensures first { take result.0 holes.now ≡ ending_below at holes.now }
    ensures from { result.1 ≡ free_from at holes.now }
    ensures near { (result.0 ≤ place) × (place ≤ result.0 + 1) × (place ≤ length holes.now) }
{
    if place > 0 {
        let hole = holes[place - 1];
        if hole.end() == at {
            return (place - 1, hole.at);
        }
    }
    (place, at)
}

/// For an offset below which so many holes begin: the place of the first that begins above it, and where the hole ends
/// that begins there, or else the offset.
fn hole_behind(holes: &[Hole], place: usize, at: u32) -> (usize, u32)
    requires place { IsPlace 1 at holes.now place }
    requires small { All (λ hole. end_of hole < 2 ^ 32) holes.now }
    ensures last { drop result.0 holes.now ≡ starting_above at holes.now }
    ensures to { result.1 ≡ free_to at holes.now }
    ensures near { (place ≤ result.0) × (result.0 ≤ place + 1) × (result.0 ≤ length holes.now) }
{
    if place < holes.len() {
        let hole = holes[place];
        if hole.at == at {
            return (place + 1, hole.end());
        }
    }
    (place, at)
}

/// Makes a block one of the holes, merged with those that it touches.
pub fn join(holes: &mut Vec<Hole>, block: Block)
    requires may { MayJoin holes.old.items block }
    requires room { length (merged block holes.old.items) ≤ vec_capacity holes.old }
    ensures items { holes.new.items ≡ merged block holes.old.items }
    ensures capacity { vec_capacity holes.new ≡ vec_capacity holes.old }
{
    let place = place_of(holes, block.at);
    let (first, from) = hole_before(holes, place, block.at);
    let (last, to) = hole_behind(holes, place, block.end());
    let hole = Hole {
        at: from,
        len: to - from,
    };
    replace(holes, first, last, hole);
}
