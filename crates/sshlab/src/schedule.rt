//! The schedule of `sshlab greet`: deliveries with commas between, as `s5,c99`.

ghost use Rattle.std.specs.Prelude.{◌≡◌, IfErr};
ghost use Rattle.sshlab.specs.ScenarioFields.{number_of, with_digit};
ghost use Rattle.sshlab.specs.Statuses.{IsNoToolFault};

use crate::command_fault::CommandFault;
use sshworld::{Delivery, Side};
use std::alloc::Global;

/// The most digits of a count, zeros in front included.
const MOST_DIGITS: usize = 10;

/// Reads a schedule: items with commas between, each `c` or `s` for the receiver and a count of
/// one to ten digits, at most 4294967295.
pub(crate) fn schedule_of(alloc: Global, text: &str) -> Result<Vec<Delivery>, CommandFault>
    ensures { IfErr result IsNoToolFault }
{
    let mut schedule = Vec::new(alloc);
    for item in text.split(',') {
        let delivery = delivery_of(item).ok_or(CommandFault::Schedule)?;
        schedule.push(delivery).map_err(|_| CommandFault::Memory)?;
    }
    Ok(schedule)
}

/// One item of a schedule.
fn delivery_of(item: &str) -> Option<Delivery> {
    let (to, count) = match item.as_bytes() {
        [b'c', count @ ..] => (Side::Client, count),
        [b's', count @ ..] => (Side::Server, count),
        _ => return None,
    };
    let count = count_of(count)?;
    Some(Delivery { to, count })
}

/// A count in decimal digits.
pub(crate) fn count_of(digits: &[u8]) -> Option<u32>
    ensures { result ≡ number_of digits.now }
{
    if digits.is_empty() || digits.len() > MOST_DIGITS {
        return None;
    }
    let mut count = 0u32;
    for digit in digits {
        count = with_digit(count, *digit)?;
    }
    Some(count)
}

/// The number that a digit makes of those before it.
#[tactic(auto, unfolding(crate::specs::ScenarioFields::with_digit))]
fn with_digit(count: u32, digit: u8) -> Option<u32>
    ensures { result ≡ with_digit count digit }
{
    if !digit.is_ascii_digit() {
        return None;
    }
    let next = u64::from(count) * 10 + u64::from(digit - b'0');
    u32::try_from(next).ok()
}
