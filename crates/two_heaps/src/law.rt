//! What is so of every heap, by the definitions alone.

ghost use Rattle.std.specs.Prelude.{◌≡◌, ℕ, ◌%◌, ◌≤◌, false};
ghost use Rattle.cv_word.specs.Heap.{Heap, fresh_heap, after_take, gives, after_give};
ghost use Rattle.two_heaps.specs.Tiling.{IsHeap, IsCovered, IsFree};

/// A heap of which all is free is one whose holes and blocks lie end to end, and take and give keep that. In such
/// a heap each byte is in one hole or one block, the block that answers a request has no byte of one that is out, and
/// no block begins at the heap's end or above.
pub fn heap_law()
    ensures fresh { (start to : ℕ) → start ≤ to → start % 16 ≡ 0 → to % 16 ≡ 0 → IsHeap start to (fresh_heap start to) }
    ensures take { (start to n : ℕ) (heap : Heap) → IsHeap start to heap → IsHeap start to (after_take heap n) }
    ensures give { (start to at : ℕ) (heap : Heap) → IsHeap start to heap → IsHeap start to (after_give heap at) }
    ensures covered { (start to : ℕ) (heap : Heap) → IsHeap start to heap → IsCovered start to heap }
    ensures free { (start to n : ℕ) (heap : Heap) → IsHeap start to heap → IsFree heap n }
    ensures beyond { (start to at : ℕ) (heap : Heap) → IsHeap start to heap → to ≤ at → (gives heap at ≡ false) × (after_give heap at ≡ heap) }
{}
