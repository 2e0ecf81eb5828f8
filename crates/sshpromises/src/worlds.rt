//! What is promised of worlds.

ghost use Rattle.std.specs.Prelude.{◌≡◌, ◌≢◌, ◌↔◌, ◌*◌, ◌+◌, IfOk, OnOk, length};
ghost use Rattle.sshcore.specs.EndData.{AgreedData, Authenticated, Open, end_data};
ghost use Rattle.sshworld.specs.Outcome.{outcome};
ghost use Rattle.sshworld.specs.WorldCourse.{AreCompatibleIn};
ghost use Rattle.sshworld.specs.Worlds.{Complete, HadMemory};
ghost use Rattle.sshpromises.specs.Claims.{EndsWell, EndsWellOnce, HasRun, HasSettled, PairIs};

use sshcore::{ClientConfig, Decisions, End, ServerConfig};
use sshpacket::{AgreeingSuite, Suite};
use sshwire::Memory;
use sshwire::owned::{beside, once};
use sshworld::{Delivery, World, follows_law, predict};
use std::alloc::Global;

/// Two complete worlds of one setup have equal pairs of ends, over any suite: from `complete` alone.
pub fn same_ends<S: Suite, D: Decisions>(one: &World<'_, S, D>, other: &World<'_, S, D>)
    requires client { other.now.client_config ≡ one.now.client_config }
    requires server { other.now.server_config ≡ one.now.server_config }
    requires suite { other.now.suite ≡ one.now.suite }
    requires decisions { other.now.decisions ≡ one.now.decisions }
    requires compatible { AreCompatibleIn S.meaning D.policy one.now }
    requires one_had { HadMemory one.now }
    requires other_had { HadMemory other.now }
    requires one_complete { Complete one.now }
    requires other_complete { Complete other.now }
    ensures client { other.now.client.end ≡ one.now.client.end }
    ensures server { other.now.server.end ≡ one.now.server.end }
    ensures together { (a : AgreedData) → (one.now.client.end ≡ Authenticated a) ↔ (one.now.server.end ≡ Authenticated a) }
    ensures ended { (one.now.client.end ≢ Open) × (one.now.server.end ≢ Open) }
{
    one.complete();
    other.complete();
}

/// A world after any schedule, over a suite whose ends agree: no premise of the caller is left but memory.
pub fn schedule_ends<'a, S: AgreeingSuite, D: Decisions>(
    alloc: Global,
    client: &'a ClientConfig,
    server: &'a ServerConfig,
    suite: &'a S,
    decisions: &'a D,
    schedule: &[Delivery],
) -> Result<World<'a, S, D>, Memory>
    ensures client_config { IfOk result (λ w. w.client_config ≡ client.now) }
    ensures server_config { IfOk result (λ w. w.server_config ≡ server.now) }
    ensures suite { IfOk result (λ w. w.suite ≡ suite.now) }
    ensures decisions { IfOk result (λ w. w.decisions ≡ decisions.now) }
    // All deliveries of the schedule were done, from a new world on.
    ensures ran { IfOk result (λ w. HasRun S.meaning D.policy client.now server.now suite.now decisions.now schedule.now w) }
    ensures memory { IfOk result (λ w. HadMemory w) }
    ensures compatible { IfOk result (λ w. AreCompatibleIn S.meaning D.policy w) }
    ensures ends { IfOk result (λ w. EndsWell (outcome (S.meaning suite.now) (D.policy decisions.now) client.now server.now) w) }
{
    follows_law();
    client.parts();
    server.parts();
    let mut world = World::new(alloc, client, server, suite, decisions)?;
    let ran = world.run(schedule);
    once(world, ran)
}

/// Any two schedules over one setup: where both are complete, the pairs of ends are equal.
pub fn any_two<'a, S: AgreeingSuite, D: Decisions>(
    alloc: Global,
    client: &'a ClientConfig,
    server: &'a ServerConfig,
    suite: &'a S,
    decisions: &'a D,
    first: &[Delivery],
    second: &[Delivery],
) -> Result<(World<'a, S, D>, World<'a, S, D>), Memory>
    // Each world comes of its schedule.
    ensures ran { IfOk result (λ two. HasRun S.meaning D.policy client.now server.now suite.now decisions.now first.now two.0 × HasRun S.meaning D.policy client.now server.now suite.now decisions.now second.now two.1) }
    ensures one { IfOk result (λ two. PairIs two.0 two.1) }
{
    let one = schedule_ends(alloc, client, server, suite, decisions, first)?;
    let other = schedule_ends(alloc, client, server, suite, decisions, second);
    beside(one, other)
}

/// `settle` by four rounds more than twice the attempts ends both sides, as the outcome says: no plan has more
/// requests than two for each attempt.
pub fn settled<'a, S: AgreeingSuite, D: Decisions>(
    alloc: Global,
    client: &'a ClientConfig,
    server: &'a ServerConfig,
    suite: &'a S,
    decisions: &'a D,
    schedule: &[Delivery],
) -> Result<World<'a, S, D>, Memory>
    // The rounds come after all deliveries of the schedule.
    ensures ran { IfOk result (λ w. HasSettled S.meaning D.policy client.now server.now suite.now decisions.now schedule.now (2 * length client.now.plan + 4) w) }
    ensures complete { IfOk result (λ w. Complete w) }
    ensures ends { IfOk result (λ w. EndsWellOnce (outcome (S.meaning suite.now) (D.policy decisions.now) client.now server.now) w) }
{
    let mut world = schedule_ends(alloc, client, server, suite, decisions, schedule)?;
    let rounds = 2 * client.attempts() as u32 + 4;
    let done = world.settle(rounds);
    once(world, done)
}

/// What `predict` answers is how any complete schedule ends.
pub fn foretold<'a, S: AgreeingSuite, D: Decisions>(
    alloc: Global,
    client: &'a ClientConfig,
    server: &'a ServerConfig,
    suite: &'a S,
    decisions: &'a D,
    schedule: &[Delivery],
) -> Result<((End, End), World<'a, S, D>), Memory>
    ensures ran { IfOk result (λ two. HasRun S.meaning D.policy client.now server.now suite.now decisions.now schedule.now two.1) }
    ensures client { IfOk result (λ two. Complete two.1 → two.1.client.end ≡ end_data two.0.0) }
    ensures server { IfOk result (λ two. Complete two.1 → two.1.server.end ≡ end_data two.0.1) }
{
    let told = predict(alloc, client, server, suite, decisions)?;
    let world = schedule_ends(alloc, client, server, suite, decisions, schedule);
    beside(told, world)
}

/// A world that was handed in, without its configs, settles over a suite whose ends agree: no plan has more than
/// 64 attempts.
pub fn settles_from_anywhere<S: AgreeingSuite, D: Decisions>(
    world: &mut World<'_, S, D>,
) -> Result<(), Memory>
    requires memory { HadMemory world.old }
    ensures { OnOk result (Complete world.new) }
{
    follows_law();
    world.complete();
    world.settle(132)
}
