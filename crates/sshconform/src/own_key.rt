//! What this side proves itself by, and its random bytes.

use crate::settings::Settings;
use sshchecks::Setting;
use sshidentity::{FileFault, bytes_of, first_line, private_key, text_in};
use sshprogram::{ProgramFault, random};

/// How many random bytes a player takes.
const DRAWN: usize = 128;

/// What this side has: its secrets, and what the words say of it.
#[derive(Drop)]
pub(crate) struct Own {
    /// The private key of ssh-ed25519, the 32 bytes of RFC 8032 section 5.1.5.
    pub(crate) key: Vec<u8>,
    /// The password, empty where there is none.
    pub(crate) password: Vec<u8>,
    pub(crate) random: [u8; DRAWN],
    pub(crate) user: String,
    pub(crate) ciphers: String,
    pub(crate) macs: String,
}

impl Own {
    /// What a player is given, by which it sends this number in a check of the sweep.
    pub(crate) fn setting(&self, number: u8) -> Setting<'_> {
        Setting {
            user: &self.user,
            password: &self.password,
            own_key: &self.key,
            random: &self.random,
            ciphers: &self.ciphers,
            macs: &self.macs,
            number,
        }
    }
}

/// Reads the files of the key and of the password, and draws random bytes of the system.
pub(crate) fn read_own(rt: &HostRuntime, settings: &Settings<'_>) -> Result<Own, ProgramFault> {
    let key = key_in(rt, settings.key_option, settings.key)?;
    let password = match settings.password_file {
        Some(path) => first_line(rt, "password-file", path)?,
        None => Vec::new(rt.alloc()),
    };
    Ok(Own {
        key,
        password,
        random: random(rt)?,
        user: String::from_str(rt.alloc(), settings.user)?,
        ciphers: String::from_str(rt.alloc(), settings.ciphers)?,
        macs: String::from_str(rt.alloc(), settings.macs)?,
    })
}

/// The private key in the file that the option names.
fn key_in(rt: &HostRuntime, option: &'static str, path: &str) -> Result<Vec<u8>, ProgramFault> {
    let file = bytes_of(rt, option, path)?;
    let text = text_in(option, &file)?;
    let found = private_key(rt, option, path, text)?;
    found.map_err(|fault| ProgramFault::File(FileFault::Key(option, fault)))
}
