//! What accepted parts are known by: their version line, and that their bytes are bytes.

ghost use Rattle.std.specs.Prelude.{◌≡◌, IfOk};
ghost use Rattle.sshwire.specs.Types.{IsBytes};
ghost use Rattle.sshcore.specs.ConfigParts.{version_of};
ghost use Rattle.sshcore.specs.ConfigRules.{HasBytes};
ghost use Rattle.sshcore.specs.ConfigView.{side_data};

use crate::config_parts::SideParts;
use sshwire::{Memory, VersionLine};
use std::alloc::Global;

/// The version line of a side, of whose parts it is known that they spell one. Answers `Memory` where
/// an allocation failed.
pub(crate) fn version_line(alloc: Global, side: &SideParts) -> Result<VersionLine, Memory>
    ensures { IfOk result (λ line. line ≡ version_of (side_data side.now)) }
{
    let line = match &side.comments {
        Some(comments) => {
            VersionLine::new(alloc, &side.softwareversion, Some(comments.as_str()))
        }
        None => VersionLine::new(alloc, &side.softwareversion, None),
    };
    match line {
        Ok(line) => Ok(line),
        Err(_) => Err(Memory),
    }
}

/// The law of a side's bytes: cookie, exchange random and padding seed are bytes. Takes no memory.
pub(crate) fn side_law(side: &SideParts)
    ensures { HasBytes (side_data side.now) }
{
    bytes_law(&side.cookie);
    bytes_law(&side.exchange_random);
    bytes_law(&side.padding_seed);
}

/// The law of a slice of bytes: they are bytes. Takes no memory.
pub(crate) fn bytes_law(bytes: &[u8])
    ensures { IsBytes bytes.now }
{}
