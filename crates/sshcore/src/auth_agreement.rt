//! What both sides agreed on, once the user is authenticated.

ghost use Rattle.std.specs.Prelude.{◌≡◌, IfOk, OnOk, is_some, true};
ghost use Rattle.sshcore.specs.declared.phase_table.Phase.TheVariants as phase;
ghost use Rattle.sshcore.specs.Attempts.{agreed_by};
ghost use Rattle.sshcore.specs.Brings.{received_one};
ghost use Rattle.sshcore.specs.EndData.{Authenticated, Open, end_data};
ghost use Rattle.sshcore.specs.StateData.{state_data};

use crate::end::End;
use crate::lent::put;
use crate::state::State;
use sshwire::Memory;

impl State<'_> {
    /// The user is authenticated for this service.
    pub(crate) fn authenticate(&mut self, user: &str, service: &str) -> Result<(), Memory>
        requires open { end_data self.old.end ≡ Open }
        requires at { self.old.phase ≡ phase.Auth }
        ensures { OnOk result (state_data self.new ≡ record (state_data self.old) {
          end = Authenticated (agreed_by (state_data self.old).known user.now service.now);
          known = received_one (state_data self.old).known;
        }) }
    {
        let end = self.agreed_end(user, service);
        self.first = false;
        put(&mut self.end, end)
    }

    /// The end at which this user is authenticated for this service. The names and the session identifier
    /// are copied.
    fn agreed_end(&self, user: &str, service: &str) -> Result<End, Memory>
        requires { is_some self.now.algorithms ≡ true }
        ensures { IfOk result (λ end. end_data end ≡ Authenticated (agreed_by (state_data self.now).known user.now service.now)) }
    {
        let session = Vec::from_slice(self.alloc, &self.session)?;
        let user = String::from_str(self.alloc, user)?;
        let service = String::from_str(self.alloc, service)?;
        let algorithms = self.algorithms.as_ref().unwrap().copy(self.alloc)?;
        Ok(End::Authenticated(algorithms.agreed(self.strict, session, user, service)))
    }
}
