//! Decisions of rows that are about something else.

use sshcore::{Decisions, Proof};
use sshwire::Memory;
use std::alloc::Global;

/// Decisions that say yes to whatever they are asked.
#[derive(Clone, Copy)]
pub struct Generous;

impl Decisions for Generous {
    ghost use Rattle.std.specs.Prelude.{None, true};

    ghost policy = { λ _. record { host_key = λ _ _. true; user = λ _ _ _ _. true; signature = λ _ _ _ _. None } };

    fn host_key(&self, _algorithm: &str, _blob: &[u8]) -> bool {
        true
    }

    fn user(&self, _request_number: u32, _user: &str, _service: &str, _proof: &Proof<'_>) -> bool {
        true
    }

    fn signature(
        &self,
        _alloc: Global,
        _number: usize,
        _algorithm: &str,
        _blob: &[u8],
        _input: &[u8],
    ) -> Result<Option<Vec<u8>>, Memory> {
        Ok(None)
    }
}
