//! Text that grows, of which the end alone is asked whether memory ran out.

ghost use Rattle.std.specs.Prelude.{◌≡◌, ◌++◌, ◌∷◌, [], IfOk, IfSome, false, true, encode_utf8, is_err, length, string_bytes, ◌==◌};

use std::alloc::{AllocError, Global};
use std::fmt::Display;

/// A text to whose end others are put. Once memory has run out nothing more is put, so no call before [`TextBuffer::finish`] has to be
/// asked for it.
#[derive(Drop)]
pub struct TextBuffer {
    text: String,
    /// Whether memory has run out.
    failed: bool,
}

impl TextBuffer {
    /// The empty text.
    pub fn new(alloc: Global) -> TextBuffer
        ensures empty { string_bytes result.text ≡ [] }
        ensures failed { result.failed ≡ false }
    {
        TextBuffer {
            text: String::new(alloc),
            failed: false,
        }
    }

    /// Puts a text.
    pub fn push_str(&mut self, text: &str)
        ensures puts { self.new.failed ≡ false → (self.old.failed ≡ false) × (string_bytes self.new.text ≡ string_bytes self.old.text ++ text.now) }
        ensures stays { self.old.failed ≡ true → self.new ≡ self.old }
    {
        if !self.failed {
            self.failed = self.text.push_str(text).is_err();
        }
    }

    /// Puts a character.
    pub fn push(&mut self, character: char)
        ensures puts { self.new.failed ≡ false → (self.old.failed ≡ false) × (string_bytes self.new.text ≡ string_bytes self.old.text ++ encode_utf8 character) }
        ensures stays { self.old.failed ≡ true → self.new ≡ self.old }
    {
        if !self.failed {
            self.failed = self.text.push(character).is_err();
        }
    }

    /// Puts a text that was made for it; where memory ran out for that, it has run out here.
    pub fn push_made(&mut self, made: Result<String, AllocError>)
        ensures puts { self.new.failed ≡ false → (self.old.failed ≡ false) × IfOk made (λ text. string_bytes self.new.text ≡ string_bytes self.old.text ++ string_bytes text) }
        ensures refused { is_err made ≡ true → self.new.failed ≡ true }
        ensures stays { self.old.failed ≡ true → self.new ≡ self.old }
    {
        match made {
            Ok(text) => self.push_str(&text),
            Err(_) => self.failed = true,
        }
    }

    /// Puts what is displayed: what `write!` calls.
    pub fn write_fmt<D: Display + Drop>(&mut self, value: D)
        ensures puts { self.new.failed ≡ false → (self.old.failed ≡ false) × IfSome (D.output value) (λ bytes. string_bytes self.new.text ≡ string_bytes self.old.text ++ bytes) }
        ensures stays { self.old.failed ≡ true → self.new ≡ self.old }
    {
        if !self.failed {
            self.failed = self.text.write(value).is_err();
        }
    }

    /// Puts what is displayed and a line feed: what `writeln!` calls.
    pub fn writeln<D: Display + Drop>(&mut self, value: D)
        ensures puts { self.new.failed ≡ false → (self.old.failed ≡ false) × IfSome (D.output value) (λ bytes. string_bytes self.new.text ≡ string_bytes self.old.text ++ (bytes ++ (10 ∷ []))) }
        ensures stays { self.old.failed ≡ true → self.new ≡ self.old }
    {
        if !self.failed {
            self.failed = self.text.writeln(value).is_err();
        }
    }

    /// Whether nothing stands there.
    pub fn is_empty(&self) -> bool
        ensures { result ≡ (length (string_bytes self.now.text) == 0) }
    {
        self.text.is_empty()
    }

    /// All that was put, or that memory ran out.
    pub fn finish(self) -> Result<String, AllocError>
        ensures failed { is_err result ≡ self.failed }
        ensures text { IfOk result (λ text. text ≡ self.text) }
    {
        if self.failed {
            return Err(AllocError);
        }
        Ok(self.text)
    }
}
