//! Places that owned values are put into. Each is generic, so that what a value owns is looked into once.

ghost use Rattle.std.specs.Prelude.{◌≡◌, Ok, OnOk};

use sshwire::Memory;

/// Puts what was made into its place.
pub(crate) fn put<T: Drop>(place: &mut T, made: Result<T, Memory>) -> Result<(), Memory>
    ensures { OnOk result (made ≡ Ok place.new) }
{
    match made {
        Ok(value) => {
            *place = value;
            Ok(())
        }
        Err(wanting) => Err(wanting),
    }
}

/// Puts a value into its place, and gives up what was there.
pub(crate) fn set<T: Drop>(place: &mut T, value: T)
    ensures { place.new ≡ value }
{
    *place = value;
}
