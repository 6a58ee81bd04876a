//! A store in memory.

ghost use Rattle.std.specs.Prelude.{◌≡◌, ◌≤◌, ◌↔◌, ◌⊎◌, ℕ, Some, [], ◌∷◌, ◌++◌, List, vec_len, OnOk, OnErr, IfOk, IsErrOf, IsTrue, position, None, if◌then◌else◌};
ghost use Rattle.std.specs.Option.{option_copied};
ghost use Rattle.std.specs.Str.{bytes_eq};
ghost use Rattle.std.specs.String.{string_bytes};
ghost use Rattle.cv_io.specs.Files.{HasFile, with_file};
ghost use Rattle.cv_io.specs.FilesInMemory.{FailsNext, IsTooLong, after_save, answered, called, called_in_vain, files_of, store_of};

use crate::store::{LONGEST_LOAD, Store, StoreError};
use cv_word::NoMemory;
use std::alloc::Global;

/// A store that holds its files in memory, tells them, and fails at chosen calls.
///
/// Loads and saves are numbered together from 1, also those that fail. The number of calls and the
/// count of faults stay at 2^64 - 1.
#[derive(Drop)]
pub struct MemStore {
    alloc: Global,
    files: Vec<File>,
    failing: Vec<u64>,
    calls: u64,
    faults: u64,
}

/// A file under its name.
#[derive(Drop)]
struct File {
    name: String,
    bytes: Vec<u8>,
}

impl MemStore {
    /// No files, no calls, and no failing ones.
    pub fn new(alloc: Global) -> MemStore
        ensures files { (name : List ℕ) → (store_of result).files name ≡ None }
        ensures failing { (store_of result).failing ≡ [] }
        ensures calls { (store_of result).calls ≡ 0 }
        ensures faults { (store_of result).faults ≡ 0 }
    {
        MemStore {
            alloc,
            files: Vec::new(alloc),
            failing: Vec::new(alloc),
            calls: 0,
            faults: 0,
        }
    }

    /// Makes `bytes` the file `name`, whether or not there was one. This is no call that is counted.
    pub fn add(&mut self, name: &str, bytes: &[u8]) -> Result<(), NoMemory>
        ensures added { OnOk result (store_of self.new ≡ record (store_of self.old) { files = with_file (store_of self.old).files name.now bytes.now }) }
        ensures err { OnErr result (store_of self.new ≡ store_of self.old) }
    {
        set_file(self.alloc, &mut self.files, name, bytes)
    }

    /// Lets the load or save of this number fail. A number that is past, or 0, lets none fail.
    pub fn fail_at(&mut self, call: u64) -> Result<(), NoMemory>
        ensures ok { OnOk result (store_of self.new ≡ record (store_of self.old) { failing = (store_of self.old).failing ++ call ∷ [] }) }
        ensures err { OnErr result (store_of self.new ≡ store_of self.old) }
    {
        self.failing.push(call)?;
        Ok(())
    }

    /// How many loads and saves have failed.
    pub fn faults(&self) -> u64
        ensures { result ≡ (store_of self.now).faults }
    {
        self.faults
    }

    /// Counts a load or a save, and answers whether it is one that fails.
    fn begin_call(&mut self) -> bool
        ensures fails { IsTrue result ↔ FailsNext (store_of self.old) }
        ensures after { store_of self.new ≡ (if result then called_in_vain (store_of self.old) else called (store_of self.old)) }
        ensures counted { (store_of self.old).faults ≤ (store_of self.new).faults }
        ensures files { (store_of self.new).files ≡ (store_of self.old).files }
    {
        self.calls = self.calls.saturating_add(1);
        if self.failing.contains(&self.calls) {
            self.faults = self.faults.saturating_add(1);
            true
        } else {
            false
        }
    }
}

impl Store for MemStore {
    ghost contents = { λ store. Some (store_of store).files };

    ghost faults = { λ store. (store_of store).faults };

    /// Fails at the numbers given to `fail_at`, and at a file longer than [`LONGEST_LOAD`].
    fn load(&mut self, alloc: Global, name: &str) -> Result<Vec<u8>, StoreError>
        ensures found { IfOk result (λ bytes. HasFile (Some (store_of self.old).files) name.now bytes.items) }
        ensures small { IfOk result (λ bytes. vec_len bytes ≤ LONGEST_LOAD) }
        ensures missing { IsErrOf result StoreError.Missing → (store_of self.old).files name.now ≡ None }
        ensures fails { FailsNext (store_of self.old) → IsErrOf result StoreError.Failed }
        ensures too_long { IsTooLong (store_of self.old).files name.now → IsErrOf result StoreError.Failed }
        ensures otherwise { IsErrOf result StoreError.Failed → FailsNext (store_of self.old) ⊎ IsTooLong (store_of self.old).files name.now }
        ensures after { store_of self.new ≡ answered result (store_of self.old) }
        ensures counted { (store_of self.old).faults ≤ (store_of self.new).faults }
    {
        if self.begin_call() {
            return Err(StoreError::Failed);
        }
        match read_file(alloc, &self.files, name) {
            Ok(bytes) => Ok(bytes),
            Err(StoreError::Failed) => {
                self.faults = self.faults.saturating_add(1);
                Err(StoreError::Failed)
            }
            Err(StoreError::Missing) => Err(StoreError::Missing),
            Err(StoreError::NoMemory) => Err(StoreError::NoMemory),
        }
    }

    /// Fails at the numbers given to `fail_at`.
    fn save(&mut self, name: &str, bytes: &[u8]) -> Result<(), StoreError>
        ensures fails { IsErrOf result StoreError.Failed ↔ FailsNext (store_of self.old) }
        ensures not_missing { IsErrOf result StoreError.Missing → ⊥ }
        ensures after { store_of self.new ≡ after_save result name.now bytes.now (store_of self.old) }
        ensures counted { (store_of self.old).faults ≤ (store_of self.new).faults }
    {
        if self.begin_call() {
            return Err(StoreError::Failed);
        }
        match set_file(self.alloc, &mut self.files, name, bytes) {
            Ok(()) => Ok(()),
            Err(NoMemory) => Err(StoreError::NoMemory),
        }
    }
}

/// The place of the first file of this name.
fn place_of(files: &[File], name: &str) -> Option<usize>
    ensures { result ≡ position (λ file. bytes_eq name.now (string_bytes file.name)) files.now }
{
    files.iter().position(|file| name == file.name.as_str())
}

/// A copy of the file of this name, if it is not too long.
fn read_file(alloc: Global, files: &[File], name: &str) -> Result<Vec<u8>, StoreError>
    ensures found { IfOk result (λ bytes. files_of files.now name.now ≡ Some bytes.items) }
    ensures small { IfOk result (λ bytes. vec_len bytes ≤ LONGEST_LOAD) }
    ensures missing { IsErrOf result StoreError.Missing → files_of files.now name.now ≡ None }
    ensures too_long { IsTooLong (files_of files.now) name.now → IsErrOf result StoreError.Failed }
    ensures failed { IsErrOf result StoreError.Failed → IsTooLong (files_of files.now) name.now }
{
    let Some(bytes) = bytes_of(files, name) else {
        return Err(StoreError::Missing);
    };
    if bytes.len() > LONGEST_LOAD {
        return Err(StoreError::Failed);
    }
    match Vec::from_slice(alloc, bytes) {
        Ok(copy) => Ok(copy),
        Err(_) => Err(StoreError::NoMemory),
    }
}

/// The bytes of the first file of this name.
fn bytes_of<'a>(files: &'a [File], name: &str) -> Option<&'a [u8]>
    ensures { option_copied result ≡ files_of files.now name.now }
{
    match place_of(files, name) {
        Some(place) => Some(&files[place].bytes),
        None => None,
    }
}

/// Makes `bytes` the file `name`, whether or not there was one.
fn set_file(alloc: Global, files: &mut Vec<File>, name: &str, bytes: &[u8]) -> Result<(), NoMemory>
    ensures set { OnOk result (files_of files.new.items ≡ with_file (files_of files.old.items) name.now bytes.now) }
    ensures err { OnErr result (files_of files.new.items ≡ files_of files.old.items) }
{
    let bytes = Vec::from_slice(alloc, bytes)?;
    match place_of(files, name) {
        Some(place) => files[place].bytes = bytes,
        None => {
            let name = String::from_str(alloc, name)?;
            files.push(File { name, bytes })?;
        }
    }
    Ok(())
}
