// Files in memory.
use std::alloc::{AllocError, Global};

/// Files by their names, each name once.
#[derive(Drop)]
pub struct Files {
    all: Vec<(String, Vec<u8>)>,
}

impl Files {
    pub fn new(alloc: Global) -> Files {
        Files {
            all: Vec::new(alloc),
        }
    }

    /// The bytes of a file; none where there is no such file.
    pub fn get(&self, name: &str) -> Option<&[u8]> {
        for (other, bytes) in &self.all {
            if other.as_str() == name {
                return Some(bytes.as_slice());
            }
        }
        None
    }

    /// A copy of a file's bytes, none of them where there is no such file.
    pub fn copy_of(&self, alloc: Global, name: &str) -> Result<Vec<u8>, AllocError> {
        Ok(self.get(name).unwrap_or(b"").to_vec(alloc)?)
    }

    /// The file of this name has these bytes from now on.
    pub fn set(&mut self, alloc: Global, name: &str, bytes: Vec<u8>) -> Result<(), AllocError> {
        for (other, held) in &mut self.all {
            if other.as_str() == name {
                *held = bytes;
                return Ok(());
            }
        }
        let name = String::from_str(alloc, name)?;
        self.all.push((name, bytes))?;
        Ok(())
    }

    /// Copies of all files.
    pub fn copies(&self, alloc: Global) -> Result<Vec<(String, Vec<u8>)>, AllocError> {
        let mut copies = Vec::new(alloc);
        for (name, bytes) in &self.all {
            let name = String::from_str(alloc, name.as_str())?;
            copies.push((name, bytes.as_slice().to_vec(alloc)?))?;
        }
        Ok(copies)
    }
}
