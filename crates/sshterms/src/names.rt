//! Bytes that have names.

use std::alloc::{AllocError, Global};

/// Bytes and their name.
#[derive(Drop)]
struct Named {
    name: String,
    bytes: Vec<u8>,
}

/// Named bytes: those that are shared, and the own ones, which count before them.
#[derive(Drop)]
pub struct Names {
    all: Vec<Named>,
    /// How many are shared; they stand first.
    shared: usize,
}

impl Names {
    /// None yet.
    pub fn new(alloc: Global) -> Names {
        Names {
            all: Vec::new(alloc),
            shared: 0,
        }
    }

    /// Names bytes, in the place of own ones of that name. It fails only where memory does; then nothing has changed.
    pub fn set(&mut self, alloc: Global, name: &str, bytes: Vec<u8>) -> Result<(), AllocError> {
        match self.find_mut(name) {
            Some(found) => *found = bytes,
            None => {
                let name = String::from_str(alloc, name)?;
                self.all.push(Named { name, bytes })?;
            }
        }
        Ok(())
    }

    /// Names a copy of bytes, and fails as [`Names::set`] does.
    pub fn set_copy(&mut self, alloc: Global, name: &str, bytes: &[u8]) -> Result<(), AllocError> {
        let copy = Vec::from_slice(alloc, bytes)?;
        self.set(alloc, name, copy)
    }

    /// The bytes that have the name.
    pub fn find(&self, name: &str) -> Option<&[u8]> {
        for named in self.all.iter().rev() {
            if named.name.as_str() == name {
                return Some(named.bytes.as_slice());
            }
        }
        None
    }

    /// The own bytes that have the name, to be changed.
    pub fn find_mut(&mut self, name: &str) -> Option<&mut Vec<u8>> {
        for named in self.all.iter_mut().skip(self.shared) {
            if named.name.as_str() == name {
                return Some(&mut named.bytes);
            }
        }
        None
    }

    /// The bytes that have the name; none of a name that isn't there.
    pub fn bytes(&self, name: &str) -> &[u8] {
        self.find(name).unwrap_or(&[])
    }

    /// Shares all that is named now.
    pub fn share(&mut self) {
        self.shared = self.all.len();
    }

    /// Forgets the own ones.
    pub fn forget(&mut self) {
        self.all.truncate(self.shared);
    }
}
