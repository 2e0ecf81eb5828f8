//! The program's words.

use crate::settings::{Listed, Settings, Work};
use sshneg::Side;
use sshprogram::{NoWork, Options, Syntax, WordFault, first_word};
use std::alloc::Global;

/// The words of the job that prints checks.
const LIST: Syntax = Syntax {
    job: "list",
    options: &["checks"],
    flags: &["json"],
    takes_subject: true,
};

/// Those of the job that plays a check to a server.
const SERVER: Syntax = Syntax {
    job: "server",
    options: &[
        "checks",
        "user",
        "password-file",
        "ciphers",
        "macs",
        "number",
        "identity",
    ],
    flags: &["json"],
    takes_subject: true,
};

/// Those of the job that plays one to a client, which has no use for the user and the password.
const CLIENT: Syntax = Syntax {
    job: "client",
    options: &[
        "checks",
        "user",
        "password-file",
        "ciphers",
        "macs",
        "number",
        "host-key",
    ],
    flags: &["json"],
    takes_subject: true,
};

/// Ciphers that are listed where no word names others: one with a tag of its own, and one that peers without it have.
const CIPHERS: &str = "chacha20-poly1305@openssh.com,aes256-ctr";

/// All ciphers that the suite has.
const ALL_CIPHERS: &str =
    "chacha20-poly1305@openssh.com,aes256-gcm@openssh.com,aes128-gcm@openssh.com,aes256-ctr,aes128-ctr";

/// MACs that are listed where no word names others.
const MACS: &str = "hmac-sha2-256";

/// All MACs that the suite has.
const ALL_MACS: &str =
    "hmac-sha2-256-etm@openssh.com,hmac-sha2-512-etm@openssh.com,hmac-sha2-256,hmac-sha2-512";

/// What the words ask for, or why they ask for nothing.
pub(crate) fn read_words<'a>(alloc: Global, words: &'a [String]) -> Result<Work<'a>, NoWork<'a>> {
    let (first, rest) = first_word(words)?;
    let (syntax, judged) = match first {
        "list" => (LIST, None),
        "server" => (SERVER, Some(Side::Server)),
        "client" => (CLIENT, Some(Side::Client)),
        word => {
            let names = "list, server or client";
            return Err(NoWork::Refused(WordFault::NoneOf { word, names }));
        }
    };
    let options = Options::read(alloc, rest, syntax)?;
    Ok(match judged {
        None => Work::List(listed_of(&options)?),
        Some(judged) => Work::Play(settings_of(&options, judged)?),
    })
}

/// What is listed: checks of servers where no word says else.
fn listed_of<'a>(options: &Options<'a>) -> Result<Listed<'a>, WordFault<'a>> {
    let names = "server or client";
    let judged = match options.subject() {
        None | Some("server") => Side::Server,
        Some("client") => Side::Client,
        Some(word) => return Err(WordFault::NoneOf { word, names }),
    };
    Ok(Listed {
        judged,
        checks: options.needed("checks")?,
        json: options.has_flag("json"),
    })
}

/// What the options of a check that is played say.
fn settings_of<'a>(options: &Options<'a>, judged: Side) -> Result<Settings<'a>, WordFault<'a>> {
    let check = options.needed_subject("the name of a check")?;
    let checks = options.needed("checks")?;
    let (user, key_option) = match judged {
        Side::Server => (options.needed("user")?, "identity"),
        Side::Client => ("", "host-key"),
    };
    Ok(Settings {
        judged,
        check,
        checks,
        user,
        key_option,
        key: options.needed(key_option)?,
        password_file: options.value("password-file"),
        ciphers: options.names("ciphers", CIPHERS, ALL_CIPHERS)?,
        macs: options.names("macs", MACS, ALL_MACS)?,
        number: number_of(options.value("number"))?,
        json: options.has_flag("json"),
    })
}

/// The number of a message that is sent, if a word says it.
fn number_of(word: Option<&str>) -> Result<Option<u8>, WordFault<'_>> {
    match word {
        None => Ok(None),
        Some(value) => match value.parse::<u8>() {
            Ok(number) => Ok(Some(number)),
            Err(_) => Err(WordFault::NoNumber {
                option: "number",
                value,
                wanted: "a number from 0 to 255",
            }),
        },
    }
}
