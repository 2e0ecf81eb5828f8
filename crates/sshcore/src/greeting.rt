//! What is sent before anything is received.

ghost use Rattle.std.specs.Prelude.{◌≡◌, ◌++◌, ◌∷◌, [], ℕ, Bool, IfOk, List, OnErr, OnOk, flat_map, map};
ghost use Rattle.sshwire.specs.Lines.{version_line};
ghost use Rattle.sshpacket.specs.KeysData.{KeysData};
ghost use Rattle.sshcore.specs.Brings.{Gives};
ghost use Rattle.sshcore.specs.EndpointConfig.{config_data, role_of};
ghost use Rattle.sshcore.specs.Directions.{preamble_of};
ghost use Rattle.sshcore.specs.EndData.{Open, end_data, goes};
ghost use Rattle.sshcore.specs.StateData.{state_data};
ghost use Rattle.sshcore.specs.Work.{guess_of, making};

use crate::config::Config;
use crate::payloads::{init_payload, kexinit_payload};
use crate::reply::Answers;
use crate::state::State;
use sshpacket::Suite;
use sshwire::Memory;
use std::alloc::Global;

impl State<'_> {
    /// Sends all that is sent before anything is received: the lines before packets, then what is sent at the
    /// making. Where an allocation failed `out` is unchanged.
    pub(crate) fn send_greeting<S: Suite>(
        &mut self,
        config: &Config<'_>,
        suite: &S,
        out: &mut Vec<u8>,
    ) -> Result<(), Memory>
        requires open { end_data self.old.end ≡ Open }
        ensures gives { OnOk result ((added : List ℕ) × (out.new.items ≡ out.old.items ++ added) × ((strict : Bool) (next : KeysData)
            → Gives (S.meaning suite.now) (config_data config.now).seed strict next (state_data self.old) (state_data self.new) (preamble_of (config_data config.now)) added
            (goes (making (S.meaning suite.now) (role_of config.now) (config_data config.now))))) }
        ensures stays { OnOk result (state_data self.new ≡ record (state_data self.old) { sending = (state_data self.new).sending }) }
        ensures memory { OnErr result (out.new.items ≡ out.old.items) }
    {
        let mut sent = Vec::new(self.alloc);
        send_lines(config, &mut sent)?;
        let answers = making_answers(self.alloc, config, suite)?;
        self.send_answers(config, suite, &answers, &mut sent)?;
        out.extend_from_slice(&sent)?;
        Ok(())
    }
}

/// What is sent at the making: KEXINIT, and a client's share where its config announces a guess (RFC 4253 section 7).
fn making_answers<S: Suite>(
    alloc: Global,
    config: &Config<'_>,
    suite: &S,
) -> Result<Answers, Memory>
    ensures { IfOk result (λ answers. answers ≡ making (S.meaning suite.now) (role_of config.now) (config_data config.now)) }
{
    let kexinit = kexinit_payload(alloc, config)?;
    let mut answers = Answers::one(alloc, kexinit)?;
    add_guess(alloc, config, suite, &mut answers)?;
    Ok(answers)
}

/// Adds a client's guess, if it makes one; a server guesses nothing (profile).
fn add_guess<S: Suite>(
    alloc: Global,
    config: &Config<'_>,
    suite: &S,
    answers: &mut Answers,
) -> Result<(), Memory>
    ensures { OnOk result (answers.new ≡ answers.old ++ guess_of (S.meaning suite.now) (role_of config.now) (config_data config.now)) }
{
    if !config.guesses() {
        return Ok(());
    }
    let guess = init_payload(alloc, config, suite, config.first_method())?;
    answers.push(guess)
}

/// Sends the lines before packets: a server's notice lines, and the version line (RFC 4253 section 4.2).
fn send_lines(config: &Config<'_>, sent: &mut Vec<u8>) -> Result<(), Memory>
    ensures { OnOk result (sent.new.items ≡ sent.old.items ++ preamble_of (config_data config.now)) }
{
    for line in config.notices() {
        send_line(line, sent)?;
    }
    config.version().write(sent)
}

/// Sends a line with its CR LF.
fn send_line(line: &[u8], sent: &mut Vec<u8>) -> Result<(), Memory>
    ensures { OnOk result (sent.new.items ≡ sent.old.items ++ version_line line.now) }
{
    sent.extend_from_slice(line)?;
    sent.extend_from_slice(b"\r\n")?;
    Ok(())
}
