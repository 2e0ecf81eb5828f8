//! What calls come to that are made one after the other.

ghost use Rattle.std.specs.Prelude.{◌++◌, List};
ghost use Rattle.sshcore.specs.EndpointParts.{DecisionsData};
ghost use Rattle.rezdolin.specs.declared.parts_of.Parts.{Parts};
ghost use Rattle.rezdolin.specs.declared.steps.Came.{Came};
ghost use Rattle.rezdolin.specs.Chains.{AreNext, Call, StandsAs, all_sent, all_used, last_of};
ghost use Rattle.rezdolin.specs.Endpoints.{AreAllowed};
ghost use Rattle.rezdolin.specs.Steps.{Begins};

/// Calls of which each goes on from the record of the one before come to what one endpoint comes to that has received all that
/// they used: by all decisions that may be its own, and that answer its questions as the calls did, it has sent what they have
/// sent, and stands as the last one tells.
pub fn calls_law()
    ensures chained { (parts : Parts) (d : DecisionsData) → AreAllowed parts d → (first : Came) (calls : List Call) → Begins parts first → AreNext parts d first calls
        → StandsAs parts d (all_used calls) (first.sent.items ++ all_sent calls) (last_of first calls) }
{}
