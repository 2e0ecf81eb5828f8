//! Bytes that grow, of which the end alone is asked whether memory ran out.

ghost use Rattle.std.specs.Prelude.{◌≡◌, ◌++◌, [], IfOk, false, true, is_err};
ghost use Rattle.sshwire.specs.Types.{boolean, string, uint32};

use crate::fault::Memory;
use crate::put::{put_boolean, put_string, put_u32};
use std::alloc::Global;

/// Bytes to whose end data types are put (RFC 4251 section 5). Once memory has run out nothing more is put, so no call before
/// [`ByteBuffer::finish`] has to be asked for it.
#[derive(Drop)]
pub struct ByteBuffer {
    bytes: Vec<u8>,
    /// Whether memory has run out.
    failed: bool,
}

impl ByteBuffer {
    /// No bytes yet.
    pub fn new(alloc: Global) -> ByteBuffer
        ensures empty { result.bytes.items ≡ [] }
        ensures failed { result.failed ≡ false }
    {
        ByteBuffer {
            bytes: Vec::new(alloc),
            failed: false,
        }
    }

    /// Puts bytes as they are.
    pub fn put(&mut self, bytes: &[u8])
        ensures puts { self.new.failed ≡ false → (self.old.failed ≡ false) × (self.new.bytes.items ≡ self.old.bytes.items ++ bytes.now) }
        ensures stays { self.old.failed ≡ true → self.new ≡ self.old }
    {
        if !self.failed {
            self.failed = self.bytes.extend_from_slice(bytes).is_err();
        }
    }

    /// Puts a boolean.
    pub fn put_boolean(&mut self, value: bool)
        ensures puts { self.new.failed ≡ false → (self.old.failed ≡ false) × (self.new.bytes.items ≡ self.old.bytes.items ++ boolean value) }
        ensures stays { self.old.failed ≡ true → self.new ≡ self.old }
    {
        if !self.failed {
            self.failed = put_boolean(&mut self.bytes, value).is_err();
        }
    }

    /// Puts a uint32.
    pub fn put_u32(&mut self, value: u32)
        ensures puts { self.new.failed ≡ false → (self.old.failed ≡ false) × (self.new.bytes.items ≡ self.old.bytes.items ++ uint32 value) }
        ensures stays { self.old.failed ≡ true → self.new ≡ self.old }
    {
        if !self.failed {
            self.failed = put_u32(&mut self.bytes, value).is_err();
        }
    }

    /// Puts a string. 2^32 bytes or more, which no string has, count as memory that has run out.
    pub fn put_string(&mut self, bytes: &[u8])
        ensures puts { self.new.failed ≡ false → (self.old.failed ≡ false) × (self.new.bytes.items ≡ self.old.bytes.items ++ string bytes.now) }
        ensures stays { self.old.failed ≡ true → self.new ≡ self.old }
    {
        if !self.failed {
            self.failed = bytes.len() > u32::MAX as usize
                || put_string(&mut self.bytes, bytes).is_err();
        }
    }

    /// All that was put, or that memory ran out.
    pub fn finish(self) -> Result<Vec<u8>, Memory>
        ensures failed { is_err result ≡ self.failed }
        ensures bytes { IfOk result (λ bytes. bytes ≡ self.bytes) }
    {
        if self.failed {
            return Err(Memory);
        }
        Ok(self.bytes)
    }
}
