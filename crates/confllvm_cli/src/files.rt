//! A store over the files of the system.

ghost use Rattle.std.specs.Prelude.{◌≤◌, IfOk, IsErrOf, None, vec_len};
ghost use Rattle.cv_io.specs.Counts.{HasRisen};

use crate::pieces::{read_all, write_all};
use cv_io::{LONGEST_LOAD, Store, StoreError};
use std::alloc::Global;
use std::fs;
use std::fs::OpenFile;
use std::rt::Files;

/// A store over files. It doesn't tell them, and counts its faults up to 2^64 - 1.
#[derive(Drop)]
pub struct FileStore<R> {
    rt: R,
    faults: u64,
}

impl<R: Files> FileStore<R> {
    /// A store that has not failed yet.
    pub fn new(rt: R) -> FileStore<R> {
        FileStore { rt, faults: 0 }
    }

    /// All bytes of the file.
    fn read(&self, alloc: Global, name: &str) -> Result<Vec<u8>, StoreError>
        ensures small { IfOk result (λ bytes. vec_len bytes ≤ LONGEST_LOAD) }
        ensures not_missing { IsErrOf result StoreError.Missing → ⊥ }
    {
        match fs::open(&self.rt, name) {
            Ok(file) => {
                let expected = file.metadata().map_or(0, |about| about.len());
                read_all(alloc, file, expected)
            }
            Err(_) => Err(StoreError::Failed),
        }
    }

    /// Writes the file, and answers whether that went well.
    fn write(&self, name: &str, bytes: &[u8]) -> bool {
        match fs::create(&self.rt, name) {
            Ok(mut file) => write_all(&mut file, bytes),
            Err(_) => false,
        }
    }

    /// Counts a fault.
    fn fail<T>(&mut self) -> Result<T, StoreError>
        ensures fails { IsErrOf result StoreError.Failed }
        ensures risen { HasRisen self.old.faults self.new.faults }
        ensures counted { self.old.faults ≤ self.new.faults }
    {
        self.faults = self.faults.saturating_add(1);
        Err(StoreError::Failed)
    }
}

impl<R: Files> Store for FileStore<R> {
    ghost contents = { λ _. None };

    ghost faults = { λ store. store.faults };

    /// A file that is missing or can't be opened is a failed load.
    fn load(&mut self, alloc: Global, name: &str) -> Result<Vec<u8>, StoreError> {
        match self.read(alloc, name) {
            Ok(bytes) => Ok(bytes),
            Err(StoreError::NoMemory) => Err(StoreError::NoMemory),
            Err(_) => self.fail(),
        }
    }

    fn save(&mut self, name: &str, bytes: &[u8]) -> Result<(), StoreError> {
        if self.write(name, bytes) {
            Ok(())
        } else {
            self.fail()
        }
    }
}
