//! Loading the inputs of `run`.

ghost use Rattle.std.specs.Prelude.{◌≡◌, ◌≤◌, ℕ, List, IfErr, IfOk, Option};
ghost use Rattle.cv_word.specs.GateStep.{Tape};
ghost use Rattle.command_line.specs.Words.{files_of, text_of};
ghost use Rattle.confllvm_top.specs.Loading.{HasInput, HasInputs, IsInput, Lacks, LacksInput};
ghost use Rattle.confllvm_top.specs.Loads.{IsLoadFault};
ghost use Rattle.confllvm_top.specs.Endings.{ToldAnd};
ghost use Rattle.confllvm_top.specs.Inputs.{loaded_with};
ghost use Rattle.confllvm_top.specs.Plans.{shelf};

use command_line::RunFiles;
use cv_io::{Store, StoreError};
use std::alloc::Global;

/// Why an input was not loaded.
#[derive(Clone, Copy, Debug)]
pub(crate) enum LoadFault<'a> {
    /// Memory was refused.
    NoMemory,
    /// The store has failed, or has no file of this name.
    Store(&'a str),
}

/// The inputs of `run`, each empty where no file is named for it.
#[derive(Drop)]
pub(crate) struct Inputs {
    pub(crate) schedule: Vec<u8>,
    pub(crate) public: Vec<u8>,
    pub(crate) private: Vec<u8>,
}

/// Loads the schedule, the public input and the private input, in this order, each if it is named.
pub(crate) fn load_inputs<'a, S: Store>(
    alloc: Global,
    files: RunFiles<'a>,
    store: &mut S,
) -> Result<Inputs, LoadFault<'a>>
    ensures inputs { IfOk result (λ inputs. (image : List ℕ) (tapes : List (Option Tape)) → HasInputs (S.contents store.old) (files_of files.entry) (loaded_with image inputs tapes)) }
    ensures fault { IfErr result (λ fault. IsLoadFault fault (IsInput (files_of files.entry)) (ToldAnd (S.contents store.old) (λ told. LacksInput told (files_of files.entry))) (shelf S.contents S.faults store.old store.new)) }
    ensures unchanged { S.contents store.new ≡ S.contents store.old }
    ensures counted { S.faults store.old ≤ S.faults store.new }
{
    let schedule = load_named(alloc, files.schedule, store)?;
    let public = load_named(alloc, files.public_input, store)?;
    let private = load_named(alloc, files.private_input, store)?;
    Ok(Inputs {
        schedule,
        public,
        private,
    })
}

/// Loads a file, if one is named.
fn load_named<'a, S: Store>(
    alloc: Global,
    name: Option<&'a str>,
    store: &mut S,
) -> Result<Vec<u8>, LoadFault<'a>>
    ensures found { IfOk result (λ bytes. HasInput (S.contents store.old) (text_of name.entry) bytes.items) }
    ensures fault { IfErr result (λ fault. IsLoadFault fault (λ n. text_of name.entry ≡ Some n) (ToldAnd (S.contents store.old) (λ told. Lacks told (text_of name.entry))) (shelf S.contents S.faults store.old store.new)) }
    ensures unchanged { S.contents store.new ≡ S.contents store.old }
    ensures counted { S.faults store.old ≤ S.faults store.new }
{
    let Some(name) = name else {
        return Ok(Vec::new(alloc));
    };
    match store.load(alloc, name) {
        Ok(bytes) => Ok(bytes),
        Err(StoreError::NoMemory) => Err(LoadFault::NoMemory),
        Err(StoreError::Missing) => Err(LoadFault::Store(name)),
        Err(StoreError::Failed) => Err(LoadFault::Store(name)),
    }
}
