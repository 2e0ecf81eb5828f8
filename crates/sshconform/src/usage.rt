//! What `sshconform --help` prints.

/// The program's words.
pub(crate) const USAGE: &str = "\
sshconform list [server|client] --checks FILE [--json]
sshconform server CHECK --checks FILE --user NAME --identity FILE [--password-file FILE]
                  [--ciphers NAMES] [--macs NAMES] [--number N] [--json]
sshconform client CHECK --checks FILE --host-key FILE
                  [--ciphers NAMES] [--macs NAMES] [--number N] [--json]
sshconform --help

list prints the checks of a file. server and client play one of them to a server or a client, whose bytes are on standard
input and output, and print on standard error what it did. scripts/conform plays them all. docs/CONFORM.md tells each option.
Status: 0 keeps or unclear, 1 deviates, 2 bad words or checks, 3 out of memory, 4 read or write failed, 5 a hole.
";
