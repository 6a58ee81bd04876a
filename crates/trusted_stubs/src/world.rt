//! What the gates keep of a run.

ghost use Rattle.std.specs.Prelude.{◌≡◌, [], IfOk, length};
ghost use Rattle.cv_word.specs.GateStep.{copied};

use crate::output::Output;
use cv_word::NoMemory;
use std::alloc::Global;
use std::marker::Model;
use two_heaps::Heap;

/// The most bytes of one release.
pub(crate) const LONGEST_RELEASE: usize = 65_536;

/// What the gates keep of a run: both inputs and the position in each, both heaps, both outputs, the audit, and a buffer for
/// the answer of a releaser. Contracts see it as the record `World` of `cv_word`, which says nothing of the buffer.
#[derive(Drop)]
pub struct World<'a> {
    pub(crate) prefix: [u8; 6],
    pub(crate) public_input: &'a [u8],
    pub(crate) private_input: &'a [u8],
    pub(crate) public_position: u64,
    pub(crate) private_position: u64,
    pub(crate) public_heap: Heap,
    pub(crate) private_heap: Heap,
    pub(crate) public_output: Output,
    pub(crate) private_output: Output,
    pub(crate) audit: Output,
    /// Its front takes the answer of a releaser.
    pub(crate) answer: Vec<u8>,
}

impl<'a> Model for World<'a> {
    ghost use Rattle.cv_word.specs.GateStep.{World};

    ghost Value = { World };

    ghost use Rattle.trusted_stubs.specs.Worlds.{world_of, IsWithin};

    ghost view = { world_of };

    ghost invariant = { IsWithin };
}

impl<'a> World<'a> {
    /// A world at the start of a run: nothing was read, and nothing was put out. The prefix is that of the image's words. All
    /// memory that gates need is taken here.
    pub fn new(
        alloc: Global,
        prefix: [u8; 6],
        public_in: &'a [u8],
        private_in: &'a [u8],
        pub_heap: Heap,
        priv_heap: Heap,
    ) -> Result<World<'a>, NoMemory>
        ensures { IfOk result (λ world. world ≡ record {
          visible = record {
            prefix = prefix;
            public_input = public_in.now;
            public_position = 0;
            private_position = 0;
            public_heap = pub_heap;
            private_heap = priv_heap;
            public_output = [];
            audit = [];
          };
          private_input = private_in.now;
          private_output = [];
        }) }
    {
        Ok(World {
            prefix,
            public_input: public_in,
            private_input: private_in,
            public_position: 0,
            private_position: 0,
            public_heap: pub_heap,
            private_heap: priv_heap,
            public_output: Output::new(alloc)?,
            private_output: Output::new(alloc)?,
            audit: Output::new(alloc)?,
            answer: zeros(alloc, LONGEST_RELEASE)?,
        })
    }

    /// The prefix of the image's words.
    pub(crate) fn prefix(&self) -> [u8; 6]
        ensures { result ≡ self.now.visible.prefix }
    {
        self.prefix
    }

    /// How many bytes of the public input are copied where so many are asked for.
    pub(crate) fn copied(&self, most: u64) -> u64
        ensures count { result ≡ copied most self.now.visible }
    {
        most.min(self.public_input.len() as u64 - self.public_position)
    }

    /// The public bytes put out so far.
    pub fn public_out(&self) -> &[u8]
        ensures { result.now ≡ self.now.visible.public_output }
    {
        self.public_output.bytes()
    }

    /// The private bytes put out so far.
    pub fn private_out(&self) -> &[u8]
        ensures { result.now ≡ self.now.private_output }
    {
        self.private_output.bytes()
    }

    /// The audit so far: for each release its class and its number of bytes, each in 4 bytes, lowest first, and the bytes that
    /// were told.
    pub fn audit(&self) -> &[u8]
        ensures { result.now ≡ self.now.visible.audit }
    {
        self.audit.bytes()
    }
}

/// So many zeros.
fn zeros(alloc: Global, count: usize) -> Result<Vec<u8>, NoMemory>
    ensures { IfOk result (λ v. length v.items ≡ count) }
{
    Ok(vec![in alloc; 0u8; count]?)
}
