//! What a server keeps of the requests that were successful: their methods, their user and their key (RFC 4252).

ghost use Rattle.std.specs.Prelude.{◌≡◌, ◌<◌, None, OnOk, Some, false, string_bytes, true};
ghost use Rattle.std.specs.List.{list_all};
ghost use Rattle.sshmsg.specs.MessageData.{method_name};
ghost use Rattle.sshcore.specs.Authenticating.{HasName, tried_key};
ghost use Rattle.sshcore.specs.EndpointConfig.{config_data};
ghost use Rattle.sshcore.specs.StateData.{completed_methods_data, state_data};
ghost use Rattle.sshcore.specs.CompletedMethods.{has_completed, is_complete, kept_completed, successful_completed};
ghost use Rattle.sshcore.specs.QuestionsView.{claim_method};
ghost use Rattle.sshcore.specs.Tries.{tried_with};

use crate::config::Config;
use crate::pending::Claim;
use crate::session::UserKey;
use crate::state::{CompletedMethods, State};
use sshwire::Memory;

impl State<'_> {
    /// Keeps the key of a successful request, if it is signed.
    pub(crate) fn keep_key(&mut self, claim: &Claim) -> Result<(), Memory>
        requires { HasName (claim_method claim.now) }
        ensures { OnOk result (state_data self.new ≡ record (state_data self.old) { carried = tried_key (state_data self.old).carried (claim_method claim.now) true }) }
    {
        let Claim::Key { algorithm, blob } = claim else {
            return Ok(());
        };
        let algorithm = String::from_str(self.alloc, algorithm)?;
        let blob = Vec::from_slice(self.alloc, blob)?;
        self.user_key = Some(UserKey { algorithm, blob });
        Ok(())
    }

    /// Forgets what was completed for another user or another service.
    pub(crate) fn forget_others(&mut self, user: &str, service: &str)
        ensures { state_data self.new ≡ record (state_data self.old) {
          known = record (state_data self.old).known {
            completed = kept_completed (state_data self.old).known.completed (record { user = user.now; service = service.now; successful = None });
          };
        } }
    {
        let same = self.completed.user.as_str() == user
            && self.completed.service.as_str() == service;
        if !same {
            self.completed.password = false;
            self.completed.publickey = false;
        }
    }

    /// Keeps that a successful request by this method was received.
    pub(crate) fn complete_method(
        &mut self,
        user: &str,
        service: &str,
        claim: &Claim,
    ) -> Result<(), Memory>
        ensures { OnOk result (state_data self.new ≡ record (state_data self.old) {
          known = record (state_data self.old).known {
            completed = successful_completed (state_data self.old).known.completed (tried_with user.now service.now (claim_method claim.now) true) (Some (method_name (claim_method claim.now)));
          };
        }) }
    {
        let password = self.completed.password || claim.is_by("password");
        let publickey = self.completed.publickey || claim.is_by("publickey");
        let user = String::from_str(self.alloc, user)?;
        let service = String::from_str(self.alloc, service)?;
        self.completed = CompletedMethods {
            user,
            service,
            password,
            publickey,
        };
        Ok(())
    }

    /// Whether all required methods are completed.
    pub(crate) fn is_complete(&self, config: &Config<'_>) -> bool
        ensures { result ≡ is_complete (config_data config.now).required (state_data self.now).known.completed }
    {
        are_completed(config.required(), &self.completed)
    }
}

/// Whether all these methods are completed.
fn are_completed(required: &[String], completed: &CompletedMethods) -> bool
    ensures { result ≡ list_all (λ own. has_completed (completed_methods_data completed.now) (string_bytes own)) required.now }
{
    required
        .iter()
        .all(|method| has_completed(method, completed))
}

/// Whether this method is completed.
fn has_completed(method: &str, completed: &CompletedMethods) -> bool
    ensures { result ≡ has_completed (completed_methods_data completed.now) method.now }
{
    method == "password" && completed.password || method == "publickey" && completed.publickey
}
