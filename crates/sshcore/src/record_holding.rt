//! The record of a paused endpoint that has received more, of which nothing comes yet.

ghost use Rattle.std.specs.Prelude.{◌≡◌, ◌<◌, ◌-◌, ◌≤◌, IfOk, IfSome, None, Ok, length};
ghost use Rattle.sshneg.specs.declared.side.Side.{Side};
ghost use Rattle.sshcore.specs.EndpointParts.{ConfigData};
ghost use Rattle.sshcore.specs.Paused.{FitsPaused, PausedData};
ghost use Rattle.sshcore.specs.Record.{IsRecordOf, missing_by};
ghost use Rattle.sshcore.specs.RecordHolding.{IsHolding};

use crate::asking_paused::PausedEndpoint;
use crate::record_fault::RECORD_LIMIT;
use crate::record_reading::waits_in;
use crate::record_writing::put_waits;
use sshpacket::Suite;
use sshwire::Memory;
use std::alloc::Global;

/// How many bytes are missing after these; none where these may be enough.
fn missing_after(missing: u32, piece: &[u8]) -> Option<u32>
    ensures fewer { IfSome result (λ left. (length piece.now < missing) × (left ≡ missing - length piece.now)) }
    ensures none { result ≡ None → missing ≤ length piece.now }
{
    let Ok(len) = u32::try_from(piece.len()) else {
        return None;
    };
    if len < missing {
        Some(missing - len)
    } else {
        None
    }
}

impl<S: Suite> PausedEndpoint<S> {
    /// Of a record ([`record`](PausedEndpoint::record)) that of the same endpoint once it has received these bytes more, where nothing
    /// comes of them but that they are held: the endpoint is within a packet, and wants more of it than these before it looks at it
    /// again. None where something may come of them: make the endpoint then, and feed it. None for bytes that begin as no record of
    /// this version, too. Answers `Memory` where an allocation failed, and where the record would have more than
    /// [`RECORD_LIMIT`] bytes.
    ///
    /// It reads no config, and makes no endpoint: so a peer whose packets come in many small pieces costs little. What stands after
    /// the unfinished packet in the record is copied unread.
    pub fn record_holding(
        alloc: Global,
        text: &[u8],
        piece: &[u8],
    ) -> Result<Option<Vec<u8>>, Memory>
        ensures holds { IfOk result (λ o. IfSome o (λ new. (role : Side) (config : ConfigData) (suite : S) (p : PausedData S) → IsRecordOf text.now p
            → FitsPaused S.meaning role config suite p → IsHolding S.meaning role config suite piece.now new.items p)) }
        // Of a record none comes only where the piece has as many bytes as are missing.
        ensures none { result ≡ Ok None → (p : PausedData S) → IsRecordOf text.now p → missing_by p.input p.waiting ≤ length piece.now }
    {
        sshpacket::parser_by_law();
        sshpacket::stream_law();
        sshmsg::numbers_law();
        sshneg::markers_law();
        let Some(waits) = waits_in(text) else {
            return Ok(None);
        };
        let Some(missing) = missing_after(waits.missing, piece) else {
            return Ok(None);
        };
        let mut out = Vec::with_capacity(alloc, text.len() + piece.len())?;
        put_waits(&mut out, missing, waits.held, piece)?;
        out.extend_from_slice(waits.rest)?;
        if out.len() > RECORD_LIMIT {
            return Err(Memory);
        }
        Ok(Some(out))
    }
}
