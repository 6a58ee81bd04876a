//! The heap.

ghost use Rattle.std.specs.Prelude.{◌≡◌, ◌+◌, ◌%◌, ◌^◌, ◌≤◌, ◌↔◌, None, false, IfOk, MatchOption, unwrap_or};
ghost use Rattle.cv_word.specs.Heap.{block_size, fresh_heap, hole_for, taken_at, after_take, gives, after_give};
ghost use Rattle.two_heaps.specs.Tiling.{IsHeap, IsRefused};
ghost use Rattle.two_heaps.specs.Kept.{IsFirstFit, IsSmallHeap};

use crate::hole::{Block, Hole};
use crate::spans::{cut, first_fit, join, place_block, place_of, push_between};
use cv_word::NoMemory;
use std::alloc::Global;
use std::marker::Model;

/// How many blocks may be out.
const MOST_BLOCKS: usize = 4096;

/// The largest request that 32 bits hold when it is rounded up to a multiple of 16.
const LARGEST_REQUEST: u64 = 0xffff_fff0;

/// Holes and blocks, each by offset, end to end from the heap's start to its end.
#[derive(Drop)]
pub struct Heap {
    holes: Vec<Hole>,
    blocks: Vec<Block>,
}

impl Model for Heap {
    ghost use Rattle.cv_word.specs.Heap as heap;
    ghost use Rattle.std.specs.Prelude.{vec_capacity};
    ghost use Rattle.two_heaps.specs.Kept.{IsSmallHeap, HasRoom};

    ghost Value = { heap.Heap };

    ghost view = { λ h. record { holes = h.holes.items; blocks = h.blocks.items } };

    ghost invariant = { λ h. IsSmallHeap (record { holes = h.holes.items; blocks = h.blocks.items }) × HasRoom (vec_capacity h.holes) (vec_capacity h.blocks) };
}

impl Heap {
    /// A heap of which all is free, from an offset up to another, with room for 4096 blocks and 4097 holes. Both are
    /// multiples of 16, and the start is at least 16.
    pub fn new(alloc: Global, start: u32, end: u32) -> Result<Heap, NoMemory>
        requires start { (16 ≤ start) × (start % 16 ≡ 0) }
        requires end { (start ≤ end) × (end % 16 ≡ 0) }
        ensures fresh { IfOk result (λ heap. heap ≡ fresh_heap start end) }
        ensures heap { IfOk result (IsHeap start end) }
    {
        let mut holes = Vec::with_capacity(alloc, MOST_BLOCKS + 1)?;
        let blocks = Vec::with_capacity(alloc, MOST_BLOCKS)?;
        push_between(&mut holes, start, end);
        Ok(Heap { holes, blocks })
    }

    /// Takes the front of the first hole, by offset, that holds `n` bytes rounded up to a multiple of 16, and answers
    /// its offset. Answers 0, and changes nothing, exactly where `n` is 0, no hole holds it, or 4096 blocks are out.
    pub fn take(&mut self, n: u64) -> u32
        ensures answer { result ≡ unwrap_or (taken_at self.old n) 0 }
        ensures refused { (result ≡ 0) ↔ IsRefused self.old n }
        ensures after { self.new ≡ after_take self.old n }
        ensures kept { result ≡ 0 → self.new ≡ self.old }
    {
        let Some((place, size)) = self.hole_for(n) else {
            return 0;
        };
        let hole = self.holes[place];
        cut(&mut self.holes, place, hole, size);
        place_block(
            &mut self.blocks,
            Hole {
                at: hole.at,
                len: size,
            },
        );
        hole.at
    }

    /// Makes the block that begins exactly at an offset a hole, merged with the holes that it touches. Answers false,
    /// and changes nothing, exactly where no block begins there.
    pub fn give(&mut self, at: u32) -> bool
        ensures answer { result ≡ gives self.old at }
        ensures after { self.new ≡ after_give self.old at }
        ensures kept { result ≡ false → self.new ≡ self.old }
    {
        let place = place_of(&self.blocks, at);
        if place == self.blocks.len() || self.blocks[place].at != at {
            return false;
        }
        let block = self.blocks.remove(place);
        join(&mut self.holes, block);
        true
    }

    /// The holes, by offset. Holes and blocks of every heap lie end to end below 2^32.
    pub fn holes(&self) -> &[Hole]
        ensures holes { result.now ≡ self.now.holes }
        ensures heap { IsSmallHeap self.now }
    {
        &self.holes
    }

    /// The place of the hole that answers a request, and how many bytes its block takes.
    fn hole_for(&self, n: u64) -> Option<(usize, u32)>
        ensures { MatchOption result (hole_for self.now n ≡ None) (λ found. IsFirstFit self.now n found.0 found.1) }
    {
        if n == 0 || n > LARGEST_REQUEST || self.blocks.len() >= MOST_BLOCKS {
            return None;
        }
        let size = rounded_up(n);
        match first_fit(&self.holes, size) {
            Some(place) => Some((place, size)),
            None => None,
        }
    }
}

/// A request rounded up to a multiple of 16.
fn rounded_up(n: u64) -> u32
    requires { n ≤ LARGEST_REQUEST }
    ensures { result ≡ block_size n }
{
    ((n + 15) / 16 * 16) as u32
}
