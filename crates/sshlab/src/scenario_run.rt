//! What is done in the world of a scenario.

ghost use Rattle.std.specs.Prelude.{◌≡◌, ◌+◌, IfOk, OnErr, OnOk};
ghost use Rattle.sshworld.specs.Offered.{most_requests};
ghost use Rattle.sshworld.specs.Conversed.{EachReplies};
ghost use Rattle.sshworld.specs.CourseReceived.{IsCourseReceived};
ghost use Rattle.sshworld.specs.Headline.{Headline};
ghost use Rattle.sshworld.specs.Outcome.{outcome};
ghost use Rattle.sshworld.specs.WorldCourse.{AreCompatibleIn, WorldHolds};
ghost use Rattle.sshworld.specs.Wordings.{wording_of};
ghost use Rattle.sshworld.specs.Worlds.{Complete, HadMemory, IsSameSetup};
ghost use Rattle.sshlabsuites.specs.Lab.{lab};
ghost use Rattle.sshlabsuites.specs.LabDecisionsData.{lab_policy};
ghost use Rattle.sshlab.specs.Steps.{EndsSettling, StepDone, StepsLeadTo, StopsInStep, SettlesFor, StepsDone, StopsInSteps};

use crate::scenario::Scenario;
use crate::scenario_line::Step;
use sshcore::Decisions;
use sshlabsuites::{LabDecisions, LabSuite};
use sshpacket::Suite;
use sshwire::Memory;
use sshwire::owned::once;
use sshworld::{World, follows_law};
use std::alloc::Global;

impl Scenario {
    /// A world of the scenario's configs, over the lab suite, in which the steps were done in the order
    /// of their lines. Answers `Memory` only where an allocation failed: no step is done after the first one
    /// for which it was wanting.
    pub fn run(&self, alloc: Global) -> Result<World<'_, LabSuite, LabDecisions>, Memory>
        ensures client_config { IfOk result (λ w. w.client_config ≡ self.now.client) }
        ensures server_config { IfOk result (λ w. w.server_config ≡ self.now.server) }
        ensures decisions { IfOk result (λ w. w.decisions ≡ self.now.decisions) }
        ensures steps { IfOk result (λ w. StepsLeadTo (λ suite. lab) lab_policy self.now.client self.now.server self.now.decisions self.now.steps.items w) }
        ensures replies { IfOk result (λ w. EachReplies (λ suite. lab) lab_policy w) }
        // The ends of a lab understand each other, and neither ran out of memory: so both sides are in the course of
        // their configs, and each that has ended has the end that is predicted.
        ensures course { IfOk result (λ w. IsCourseReceived lab (lab_policy self.now.decisions) self.now.client self.now.server
            (wording_of lab (lab_policy self.now.decisions) self.now.client self.now.server) w.client w.server) }
        ensures headline { IfOk result (λ w. Headline (outcome lab (lab_policy self.now.decisions) self.now.client self.now.server) w.client.end w.server.end (Complete w)) }
        // Where nothing waits for either side, both ends are those that are predicted.
        ensures predicted { IfOk result (λ w. Complete w
            → (w.client.end ≡ (outcome lab (lab_policy self.now.decisions) self.now.client self.now.server).client)
            × (w.server.end ≡ (outcome lab (lab_policy self.now.decisions) self.now.client self.now.server).server)) }
        // So it is where the last step is so many rounds, four more than the client's plan has requests at the most, or more.
        ensures settled { IfOk result (λ w. EndsSettling (most_requests self.now.client.plan + 4) self.now.steps.items → Complete w) }
    {
        follows_law();
        self.client.parts();
        self.server.parts();
        let mut world = World::new(
            alloc,
            &self.client,
            &self.server,
            &LabSuite,
            &self.decisions,
        )?;
        let done = do_steps(&mut world, &self.steps);
        once(world, done)
    }
}

/// Does the steps in order, up to the first one for which memory ran out; then it answers `Memory`.
fn do_steps<S: Suite, D: Decisions>(
    world: &mut World<'_, S, D>,
    steps: &[Step],
) -> Result<(), Memory>
    ensures steps { OnOk result (StepsDone S.meaning D.policy steps.now world.old world.new) }
    ensures stopped { OnErr result (StopsInSteps S.meaning D.policy steps.now world.old world.new) }
    ensures still { OnOk result (HadMemory world.old → HadMemory world.new) }
    ensures setup { OnOk result (IsSameSetup world.old world.new) }
    ensures holds { OnOk result (WorldHolds S.meaning D.policy world.old → WorldHolds S.meaning D.policy world.new) }
    ensures settled { OnOk result (AreCompatibleIn S.meaning D.policy world.old → HadMemory world.old
        → EndsSettling (most_requests world.old.client_config.plan + 4) steps.now → Complete world.new) }
{
    for step in steps {
        do_step(world, *step)?;
    }
    Ok(())
}

/// Does one step, up to the first delivery for which memory ran out; then it answers `Memory`.
fn do_step<S: Suite, D: Decisions>(world: &mut World<'_, S, D>, step: Step) -> Result<(), Memory>
    ensures done { OnOk result (StepDone S.meaning D.policy step world.old world.new) }
    ensures stopped { OnErr result (StopsInStep S.meaning D.policy step world.old world.new) }
    ensures still { OnOk result (HadMemory world.old → HadMemory world.new) }
    ensures holds { WorldHolds S.meaning D.policy world.new }
    ensures settled { OnOk result (AreCompatibleIn S.meaning D.policy world.old → HadMemory world.old
        → SettlesFor (most_requests world.old.client_config.plan + 4) step → Complete world.new) }
{
    match step {
        Step::Deliver(delivery) => {
            world.deliver(delivery.to, delivery.count)?;
            Ok(())
        }
        Step::Settle(rounds) => world.settle(rounds),
    }
}
