//! The question that an endpoint asks, as bytes.

ghost use Rattle.std.specs.Prelude.{◌≡◌, ◌++◌, IfOk, OnOk, ℕ};
ghost use Rattle.sshcore.specs.EndpointPartsView.{proof_data};
ghost use Rattle.sshcore.specs.Questions.{HostKeyQuestion, SignatureQuestion, UserQuestion};
ghost use Rattle.sshcore.specs.QuestionsView.{question_data};
ghost use Rattle.sshwire.specs.Types.{uint32};
ghost use Rattle.rezdolin.specs.Questions.{method_of, proof_fields, question_bytes};
ghost use Rattle.rezdolin.specs.Records.{flag, strings};

use crate::answers::{ASKS_HOST_KEY, ASKS_SIGNATURE, ASKS_USER};
use crate::inputs::{METHOD_NONE, METHOD_PASSWORD, METHOD_PUBLICKEY};
use crate::record::put_fields;
use sshcore::{Proof, Question};
use sshwire::{Memory, put_u32};
use std::alloc::Global;

/// The record of a question: its fields, each as a string (RFC 4251 section 5).
pub(crate) fn question_record(alloc: Global, question: &Question<'_>) -> Result<Vec<u8>, Memory>
    ensures { IfOk result (λ v. v.items ≡ question_bytes (question_data question.now)) }
{
    match question {
        Question::HostKey { algorithm, blob } => host_key_record(alloc, algorithm, blob),
        Question::User {
            number,
            user,
            service,
            proof,
            signed,
        } => user_record(alloc, *number, user, service, proof, *signed),
        Question::Signature {
            algorithm,
            blob,
            input,
            ..
        } => signature_record(alloc, algorithm, blob, input),
    }
}

/// The record of a question on a host key.
fn host_key_record(alloc: Global, algorithm: &str, blob: &[u8]) -> Result<Vec<u8>, Memory>
    ensures { IfOk result (λ v. v.items ≡ question_bytes (HostKeyQuestion algorithm.now blob.now)) }
{
    let mut out = Vec::new(alloc);
    let kind = [ASKS_HOST_KEY as u8];
    let fields: [&[u8]; 9] = [
        &kind,
        &[],
        &[],
        &[],
        &[],
        algorithm.as_bytes(),
        blob,
        &[],
        &[],
    ];
    put_fields(&fields, &mut out)?;
    Ok(out)
}

/// The record of a question on a request or query.
fn user_record(
    alloc: Global,
    number: u32,
    user: &str,
    service: &str,
    proof: &Proof<'_>,
    signed: bool,
) -> Result<Vec<u8>, Memory>
    ensures { IfOk result (λ v. v.items ≡ question_bytes (UserQuestion number user.now service.now (proof_data proof.now) signed)) }
{
    let mut out = Vec::new(alloc);
    let mut digits = Vec::new(alloc);
    put_u32(&mut digits, number)?;
    let kind = [ASKS_USER as u8];
    let fields: [&[u8]; 4] = [&kind, &digits, user.as_bytes(), service.as_bytes()];
    put_fields(&fields, &mut out)?;
    put_proof(alloc, proof, signed, &mut out)?;
    Ok(out)
}

/// The record of a question for a signature: by which algorithm and key, and what is to be signed. Its number isn't told, since one
/// signature alone is asked for at a time.
fn signature_record(
    alloc: Global,
    algorithm: &str,
    blob: &[u8],
    input: &[u8],
) -> Result<Vec<u8>, Memory>
    ensures { IfOk result (λ v. (number : ℕ) → v.items ≡ question_bytes (SignatureQuestion number algorithm.now blob.now input.now)) }
{
    let mut out = Vec::new(alloc);
    let kind = [ASKS_SIGNATURE as u8];
    let fields: [&[u8]; 7] = [&kind, &[], &[], &[], &[], algorithm.as_bytes(), blob];
    put_fields(&fields, &mut out)?;
    put_fields(&[input, &[]], &mut out)?;
    Ok(out)
}

/// Appends the fields of what a request proves, and whether a key's signature has been verified.
fn put_proof(
    alloc: Global,
    proof: &Proof<'_>,
    signed: bool,
    out: &mut Vec<u8>,
) -> Result<(), Memory>
    ensures { OnOk result (out.new.items ≡ out.old.items ++ strings (proof_fields (proof_data proof.now) signed)) }
{
    let method = method_bytes(alloc, method_of(proof))?;
    let verified = flag_of(signed);
    match proof {
        Proof::None => put_fields(&[&method, &[], &[], &[], &verified], out),
        Proof::Password(password) => put_fields(&[&method, &[], &[], password, &verified], out),
        Proof::Key { algorithm, blob } => {
            put_fields(&[&method, algorithm.as_bytes(), blob, &[], &verified], out)
        }
    }
}

/// One byte, 1 where a key's signature has been verified, else 0.
fn flag_of(signed: bool) -> [u8; 1]
    ensures { result ≡ flag signed }
{
    if signed { [1] } else { [0] }
}

/// The number of a request's method.
fn method_of(proof: &Proof<'_>) -> u32
    ensures { result ≡ method_of (proof_data proof.now) }
{
    match proof {
        Proof::None => METHOD_NONE,
        Proof::Password(_) => METHOD_PASSWORD,
        Proof::Key { .. } => METHOD_PUBLICKEY,
    }
}

/// The number of a method in four bytes, the highest first (RFC 4251 section 5).
fn method_bytes(alloc: Global, number: u32) -> Result<Vec<u8>, Memory>
    ensures { IfOk result (λ v. v.items ≡ uint32 number) }
{
    let mut method = Vec::new(alloc);
    put_u32(&mut method, number)?;
    Ok(method)
}
