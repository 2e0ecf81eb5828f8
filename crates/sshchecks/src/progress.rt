//! How far an act is.

use crate::fault::PlayFault;

/// How far an act is.
#[derive(Clone, Copy)]
pub(crate) enum Progress {
    /// It is done.
    Done,
    /// More has to come.
    Waits,
    /// The check ends by this word.
    Over(&'static str),
}

/// An act that is done where nothing failed.
pub(crate) fn done<'a>(made: Result<(), PlayFault<'a>>) -> Result<Progress, PlayFault<'a>> {
    match made {
        Ok(()) => Ok(Progress::Done),
        Err(fault) => Err(fault),
    }
}
