//! Why a check can't be read, or not be played.

use sshwire::Memory;
use std::alloc::{AllocError, AllocFailed};
use std::error::Error;
use std::fmt;

/// Why the lines of a check aren't one.
#[derive(Clone, Copy, Debug, PartialEq, Eq)]
pub enum CheckFault<'a> {
    /// An allocation failed.
    Memory,
    /// This line has no form that a check knows, or stands in another place than the form has.
    Form(&'a str),
}

/// Why a check isn't played to its end.
#[derive(Clone, Copy, Debug, PartialEq, Eq)]
pub enum PlayFault<'a> {
    /// An allocation failed.
    Memory,
    /// This line names bytes or places that aren't there, or has other words than it may.
    Form(&'a str),
}

impl<'a> fmt::Display for CheckFault<'a> {
    fn fmt<W: fmt::Write>(&self, f: &mut fmt::Formatter<W>) -> fmt::Result {
        match self {
            CheckFault::Memory => f.write_str("out of memory"),
            CheckFault::Form(line) => write!(f, "no line of a check: {line}"),
        }
    }
}

impl<'a> fmt::Display for PlayFault<'a> {
    fn fmt<W: fmt::Write>(&self, f: &mut fmt::Formatter<W>) -> fmt::Result {
        match self {
            PlayFault::Memory => f.write_str("out of memory"),
            PlayFault::Form(line) => write!(f, "this act can't be played: {line}"),
        }
    }
}

impl<'a> Error for CheckFault<'a> {}

impl<'a> Error for PlayFault<'a> {}

impl<'a> From<AllocError> for CheckFault<'a> {
    fn from(_: AllocError) -> CheckFault<'a> {
        CheckFault::Memory
    }
}

impl<'a, T: Drop> From<AllocFailed<T>> for CheckFault<'a> {
    fn from(_: AllocFailed<T>) -> CheckFault<'a> {
        CheckFault::Memory
    }
}

impl<'a> From<Memory> for PlayFault<'a> {
    fn from(_: Memory) -> PlayFault<'a> {
        PlayFault::Memory
    }
}

impl<'a> From<AllocError> for PlayFault<'a> {
    fn from(_: AllocError) -> PlayFault<'a> {
        PlayFault::Memory
    }
}

impl<'a, T: Drop> From<AllocFailed<T>> for PlayFault<'a> {
    fn from(_: AllocFailed<T>) -> PlayFault<'a> {
        PlayFault::Memory
    }
}
