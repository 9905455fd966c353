//! The values that all messages of a bench are judged with.
ghost use Rattle.std.specs.Prelude.{◌≡◌};
ghost use Rattle.sieve_profile.specs.Profile.{has};
ghost use Rattle.sieve_profile.specs.declared.extension.Extension.TheVariants.{Lines};
ghost use Rattle.bench.specs.view.Site.{site_as};

use crate::scripts::Scripts;
use script_names::ScriptName;
use sieve_profile::Extension;
use sieve_run::Envelope;

/// The values that all messages of a bench are judged with. The scripts have the profile.
#[derive(Drop)]
pub(crate) struct Site<'a> {
    pub(crate) main: Option<&'a ScriptName>,
    pub(crate) envelope: &'a Envelope,
    pub(crate) scripts: &'a Scripts,
}

impl Site<'_> {
    /// Whether a report says where each action comes from.
    pub(crate) fn is_traced(&self) -> bool
        ensures { result ≡ has (site_as self.now).profile Lines }
    {
        self.scripts.profile().has(Extension::Lines)
    }
}
