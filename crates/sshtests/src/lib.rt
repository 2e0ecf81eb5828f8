//! Tests of what neither a clause nor a row or a case shows. Of the layers below the endpoint: what is printed of faults
//! and messages, and padding. Of the program `sshlab`: reads and writes that fail at some byte, bytes that are left
//! unread, what deliveries cost, and greetings of any bytes. All tests stand in this crate, for a crate with tests is
//! proved a second time with them. It has tests and what they call, and nothing else.
#![tactic(auto)]

#[cfg(test)]
mod compare;
#[cfg(test)]
mod greetings;
#[cfg(test)]
mod messages;
#[cfg(test)]
mod padding;
#[cfg(test)]
mod program;
#[cfg(test)]
mod runs;
#[cfg(test)]
mod texts;
