//! Decisions that make signatures.

ghost use Rattle.std.specs.Prelude.{◌≡◌, ◌==◌, IfOk, None, if◌then◌else◌, option_map};

use crate::endpoints::Row;
use crate::stop::Stop;
use crate::terms::bytes_of;
use crate::texts::number_of;
use crate::words::{Line, split_word};
use sshcore::{Decisions, Notice, Proof};
use sshterms::Names;
use sshwire::Memory;
use std::alloc::Global;

/// The signature of one number, or none.
#[derive(Drop)]
struct Made {
    number: usize,
    signature: Option<Vec<u8>>,
}

/// Decisions that make up to two signatures, each for the number that it is asked for with, and else decide as others do.
#[derive(Drop)]
pub struct Signing<'a, D: Decisions> {
    decisions: &'a D,
    one: Made,
    other: Made,
}

impl<D: Decisions> Decisions for Signing<'_, D> {
    ghost policy = { λ signing. record (D.policy signing.decisions.now) {
      signature = λ number _ _ _. if number == signing.one.number then option_map (λ v. v.items) signing.one.signature
          else if number == signing.other.number then option_map (λ v. v.items) signing.other.signature else None;
    } };

    fn host_key(&self, algorithm: &str, blob: &[u8]) -> bool {
        self.decisions.host_key(algorithm, blob)
    }

    fn user(&self, request_number: u32, user: &str, service: &str, proof: &Proof<'_>) -> bool {
        self.decisions.user(request_number, user, service, proof)
    }

    fn signature(
        &self,
        alloc: Global,
        number: usize,
        _algorithm: &str,
        _blob: &[u8],
        _input: &[u8],
    ) -> Result<Option<Vec<u8>>, Memory> {
        if number == self.one.number {
            return copy_of(alloc, &self.one.signature);
        }
        if number == self.other.number {
            return copy_of(alloc, &self.other.signature);
        }
        Ok(None)
    }

    fn notice(&self, notice: Notice<'_>) {
        self.decisions.notice(notice);
    }
}

/// A copy of a signature, or none.
fn copy_of(alloc: Global, signature: &Option<Vec<u8>>) -> Result<Option<Vec<u8>>, Memory>
    ensures { IfOk result (λ copy. option_map (λ v. v.items) copy ≡ option_map (λ v. v.items) signature.now) }
{
    match signature {
        None => Ok(None),
        Some(signature) => Ok(Some(Vec::from_slice(alloc, signature)?)),
    }
}

/// These decisions with the signatures of the row's first lines, `signature NUMBER TERMS`, at most two of them; and the row
/// without those lines.
pub fn signing_of<'a, D: Decisions>(
    alloc: Global,
    row: Row<'a>,
    decisions: &'a D,
) -> Result<(Signing<'a, D>, Row<'a>), Stop> {
    let (one, row) = made_of(alloc, row)?;
    let (other, row) = made_of(alloc, row)?;
    let signing = Signing {
        decisions,
        one,
        other,
    };
    Ok((signing, row))
}

/// The signature of the row's first line, and the row without that; none where it is no such line.
fn made_of<'a>(alloc: Global, row: Row<'a>) -> Result<(Made, Row<'a>), Stop> {
    if let Some((line, lines)) = row.lines.split_first()
        && let Some(words) = line.text.strip_prefix("signature ")
    {
        let made = made_by(alloc, row.names, line, words)?;
        return Ok((made, Row { lines, ..row }));
    }
    let none = Made {
        number: 0,
        signature: None,
    };
    Ok((none, row))
}

/// The signature that the words are: its number and terms.
fn made_by(alloc: Global, names: &Names, line: &Line<'_>, words: &str) -> Result<Made, Stop> {
    let (number, terms) = split_word(words);
    let number = number_of(alloc, line, number)? as usize;
    let signature = bytes_of(alloc, names, line, terms)?;
    Ok(Made {
        number,
        signature: Some(signature),
    })
}
