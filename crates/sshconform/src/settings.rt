//! What the words say.

use sshneg::Side;

/// What the program does.
#[derive(Clone, Copy)]
pub(crate) enum Work<'a> {
    /// It prints the checks of a file.
    List(Listed<'a>),
    /// It plays a check.
    Play(Settings<'a>),
}

/// What is listed.
#[derive(Clone, Copy)]
pub(crate) struct Listed<'a> {
    /// The side that the checks judge.
    pub(crate) judged: Side,
    /// The file of checks.
    pub(crate) checks: &'a str,
    /// Whether each check is an object of JSON; else it is a row of a table.
    pub(crate) json: bool,
}

/// What is played, each as it stands.
#[derive(Clone, Copy)]
pub(crate) struct Settings<'a> {
    /// The side that is judged.
    pub(crate) judged: Side,
    /// The name of the check.
    pub(crate) check: &'a str,
    /// The file of checks.
    pub(crate) checks: &'a str,
    /// The user as whom a server is asked to authenticate.
    pub(crate) user: &'a str,
    /// The option that names the file of the own private key, a user's or a host's, and the file.
    pub(crate) key_option: &'static str,
    pub(crate) key: &'a str,
    /// A file whose first line is the user's password.
    pub(crate) password_file: Option<&'a str>,
    /// Names with commas between.
    pub(crate) ciphers: &'a str,
    pub(crate) macs: &'a str,
    /// The number that a check of the sweep sends.
    pub(crate) number: Option<u8>,
    /// Whether the verdict is an object of JSON; else it is a line of text.
    pub(crate) json: bool,
}
