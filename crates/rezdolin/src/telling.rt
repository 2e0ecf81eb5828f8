//! What a call came to, in the rooms of a program.

ghost use Rattle.std.specs.Prelude.{◌≡◌, IfErr, IfOk};
ghost use Rattle.rezdolin.specs.Answers.{no_step};
ghost use Rattle.rezdolin.specs.Steps.{Tells};

use crate::answers::{StepAnswer, no_room, no_step, step_answer};
use crate::copying::is_copied;
use crate::steps::{Came, NoStep};

/// Writes what a call came to into the rooms, where there is room for all of it, and answers that.
pub(crate) fn tell(
    came: &Result<Came, NoStep>,
    next: &mut [u8],
    out: &mut [u8],
    told: &mut [u8],
) -> StepAnswer
    ensures came { IfOk came.now (λ c. Tells c result out.old next.old told.old out.new next.new told.new) }
    ensures none { IfErr came.now (λ f. (result ≡ no_step f) × (out.new ≡ out.old) × (next.new ≡ next.old) × (told.new ≡ told.old)) }
{
    let came = match came {
        Ok(came) => came,
        Err(fault) => return no_step(*fault),
    };
    if out.len() < came.sent.len()
        || next.len() < came.record.len()
        || told.len() < came.told.len()
    {
        return no_room(came);
    }
    is_copied(&came.sent, out);
    is_copied(&came.record, next);
    is_copied(&came.told, told);
    step_answer(came)
}
