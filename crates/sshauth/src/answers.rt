//! What the endpoints of a client and of a server are answered where they ask.

use crate::agent_fault::AgentFault;
use crate::asked_groups::AskedGroups;
use crate::authorized::tell_line;
use crate::fault::Fault;
use crate::groups::{DIGITS, GROUP_LEN, asked_groups, asked_word};
use crate::parts::server_trust;
use crate::report;
use crate::settings::Settings;
use crate::terminal::is_confirmed;
use crate::trust::{Trust, has_key};
use base64::engine::general_purpose::STANDARD_NO_PAD;
use sha2::{Digest, Sha256};
use sshcore::Question;
use sshprogram::{ProgramFault, random};
use std::alloc::Global;

/// Who answers: the program's files, and a person.
#[derive(Clone, Copy)]
pub(crate) struct Answers<'a> {
    pub(crate) settings: &'a Settings<'a>,
    /// What was read of the files when the program began.
    pub(crate) trust: &'a Trust,
}

/// An answer to a question.
#[derive(Drop)]
pub(crate) enum Answer {
    /// Yes or no.
    Decided(bool),
    /// A signature, if one was made.
    Signed(Option<Vec<u8>>),
}

impl Answers<'_> {
    /// The answer to a question.
    pub(crate) fn answer(
        &self,
        rt: &HostRuntime,
        question: &Question<'_>,
    ) -> Result<Answer, Fault> {
        match question {
            Question::HostKey { blob, .. } => {
                let trusted = self.trusts_host(rt, question, blob)?;
                Ok(Answer::Decided(trusted))
            }
            Question::User { .. } => Ok(Answer::Decided(self.accepts_user(rt, question)?)),
            Question::Signature {
                algorithm,
                blob,
                input,
                ..
            } => Ok(Answer::Signed(self.signature(rt, algorithm, blob, input)?)),
        }
    }

    /// Whether a host key is trusted: by the file of host keys, and where that has no line of the host and doesn't revoke this key,
    /// by a person.
    fn trusts_host(
        &self,
        rt: &HostRuntime,
        question: &Question<'_>,
        blob: &[u8],
    ) -> Result<bool, Fault> {
        if self.trust.leaves_open(blob) {
            return trusts(rt, self.settings, blob);
        }
        let trusted = self.trust.decides(question);
        if !trusted {
            self.tell_why(rt, blob)?;
        }
        Ok(trusted)
    }

    /// Whether a request is accepted: by the server's files as they stand now; where one of them is refused, no.
    fn accepts_user(&self, rt: &HostRuntime, question: &Question<'_>) -> Result<bool, Fault> {
        match server_trust(rt, self.settings) {
            Ok(trust) => Ok(trust.decides(question)),
            Err(fault @ Fault::Program(ProgramFault::Memory)) => Err(fault),
            Err(fault) => {
                report::refused(rt, &fault);
                Ok(false)
            }
        }
    }

    /// The agent's signature by the key of this blob. Where the agent makes none, that is told.
    fn signature(
        &self,
        rt: &HostRuntime,
        algorithm: &str,
        blob: &[u8],
        input: &[u8],
    ) -> Result<Option<Vec<u8>>, Fault> {
        let Some(agent) = self.settings.agent else {
            return Ok(None);
        };
        match agent.sign(rt, algorithm, blob, input) {
            Ok(signature) => Ok(Some(signature)),
            Err(AgentFault::Memory) => Err(Fault::Program(ProgramFault::Memory)),
            Err(fault) => {
                let hash = hash_of(rt.alloc(), blob)?;
                let text = format!(in rt.alloc();
                    "the agent made no {algorithm} signature by the key SHA256:{hash}: {fault}"
                )?;
                report::tell(rt, &text);
                Ok(None)
            }
        }
    }
}

impl Answers<'_> {
    /// Tells why a host key isn't trusted, about which nobody is asked.
    fn tell_why(&self, rt: &HostRuntime, blob: &[u8]) -> Result<(), ProgramFault> {
        let host = self.settings.host.unwrap_or("");
        if has_key(&self.trust.revoked, blob) {
            let text = format!(in rt.alloc(); "known_hosts revokes this key of {host}")?;
            report::tell(rt, &text);
            return Ok(());
        }
        match self.trust.known {
            Some(before) => {
                let what = format!(in rt.alloc(); "has another key for {host}")?;
                tell_line(rt, before, &what)
            }
            None => Ok(()),
        }
    }
}

/// How many random bytes are drawn for the groups that a person types: so many that three different ones are always among them, but
/// for a chance below 2^-128.
const DRAWN: usize = 64;

/// Whether the person at the terminal trusts this host key, and says so by groups of its hash that are drawn now, so nobody can type
/// them before the question tells them.
fn trusts(rt: &HostRuntime, settings: &Settings<'_>, blob: &[u8]) -> Result<bool, Fault> {
    let host = settings.host.unwrap_or("");
    let hash = hash_of(rt.alloc(), blob)?;
    let Some(digits) = hash.as_bytes().as_array::<DIGITS>() else {
        return Ok(false);
    };
    let Some(groups) = asked_groups(&random::<DRAWN>(rt)?) else {
        return Err(Fault::Program(ProgramFault::Random));
    };
    let question = question_of(rt.alloc(), host, &hash, groups)?;
    let word = asked_word(rt.alloc(), digits, groups)?;
    Ok(is_confirmed(rt, &question, &word)?)
}

/// A key's hash, as `ssh-keygen -l` prints it after `SHA256:`.
fn hash_of(alloc: Global, blob: &[u8]) -> Result<String, Fault> {
    let mut hash = String::new(alloc);
    STANDARD_NO_PAD.encode_string(&Sha256::digest(blob), &mut hash)?;
    Ok(hash)
}

/// The question whether a host key is trusted, which it names by its fingerprint, as `ssh-keygen -l` does, and asks for these groups.
fn question_of(
    alloc: Global,
    host: &str,
    hash: &str,
    groups: AskedGroups,
) -> Result<String, Fault> {
    let table = table_of(alloc, hash)?;
    let (first, second, third) = (groups.first + 1, groups.second + 1, groups.third + 1);
    let compare = "compare all of it with the fingerprint that the server's owner gives you";
    Ok(format!(in alloc;
        "no key of {host} is known; SHA256:{hash}\n{table}\n{compare}; to trust it, type groups {first}, {second} and {third}: "
    )?)
}

/// The groups of a hash after their numbers, in two lines.
fn table_of(alloc: Global, hash: &str) -> Result<String, Fault> {
    let mut table = String::new(alloc);
    for (number, group) in (1..12).zip(hash.as_bytes().chunks(GROUP_LEN)) {
        let before = match number {
            1 => "",
            7 => "\n",
            _ => " ",
        };
        let group = str::from_utf8(group).unwrap_or("");
        table.push_str(&format!(in alloc; "{before}{number:>3} {group}")?)?;
    }
    Ok(table)
}
