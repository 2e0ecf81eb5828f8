//! What `sshauth --help` prints.

/// The program's words.
pub(crate) const USAGE: &str = "\
sshauth client --user NAME --known-hosts FILE --host NAME [--identity FILE] [--password-file FILE] [--exec COMMAND]
               [--agent-requests FILE --agent-responses FILE]
               [--guess yes|no] [--strict yes|no] [--reading strict|deployed]
               [--kex NAMES] [--cipher NAMES] [--mac NAMES]
sshauth server --user NAME --host-key FILE [--authorized-keys FILE] [--password-file FILE] [--banner FILE]
               [--agent-requests FILE --agent-responses FILE]
               [--methods NAMES] [--required NAMES] [--tries N] [--strict yes|no] [--reading strict|deployed]
               [--kex NAMES] [--cipher NAMES] [--mac NAMES]
sshauth probe --host NAME [--user NAME] [--report FILE] [--strict yes|no]
               [--kex NAMES] [--cipher NAMES] [--mac NAMES]
sshauth --help

Standard input and output are the peer's; all else goes to standard error. docs/SSHAUTH.md tells each option.
";
