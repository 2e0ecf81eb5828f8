//! Guessed key exchange packets (RFC 4253 section 7).

ghost use Rattle.std.specs.Prelude.{◌≡◌, ◌↔◌, IsTrue, find, not, option_map};
ghost use Rattle.sshmsg.specs.View.{kexinit_data};
ghost use Rattle.sshneg.specs.Markers.{IsRightGuess, first_name, is_marker, methods, same_name};

use crate::markers::is_marker;
use sshmsg::KexInit;
use sshwire::NameList;

/// Whether a guessed key exchange packet is right: the first key exchange methods of both sides are
/// the same, markers left out, and so are their first host key algorithms. Unlike RFC 4253 section 7
/// it looks at no other list (profile): where another algorithm can't be agreed on, `choose` has
/// told so. Takes no memory.
pub fn guess_right(client: &KexInit<'_>, server: &KexInit<'_>) -> bool
    ensures { IsTrue result ↔ IsRightGuess (kexinit_data client.now) (kexinit_data server.now) }
{
    let kex = same_name(
        first_method(&client.kex_algorithms),
        first_method(&server.kex_algorithms),
    );
    let host_key = same_name(
        first_name(&client.server_host_key_algorithms),
        first_name(&server.server_host_key_algorithms),
    );
    kex && host_key
}

/// Whether there are two names, and they are equal.
pub(crate) fn same_name(left: Option<&str>, right: Option<&str>) -> bool
    ensures { result ≡ same_name (option_map (λ name. name.now) left.entry) (option_map (λ name. name.now) right.entry) }
{
    match (left, right) {
        (Some(left), Some(right)) => left == right,
        _ => false,
    }
}

/// The first method of a kex list.
pub(crate) fn first_method(list: &NameList) -> Option<&str>
    ensures { option_map (λ name. name.now) result ≡ first_name (methods list.now) }
{
    find_unmarked(list)
}

/// The first name of a list that is no marker.
fn find_unmarked(list: &NameList) -> Option<&str>
    ensures { option_map (λ name. name.now) result ≡ find (λ name. not (is_marker name)) list.now }
{
    list.names().find(|name| !is_marker(name))
}

/// The first name of a list.
fn first_name(list: &NameList) -> Option<&str>
    ensures { option_map (λ name. name.now) result ≡ first_name list.now }
{
    list.name_at(0)
}
