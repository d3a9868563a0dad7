//! The hosts that are taken.

ghost use Rattle.std.specs.Prelude.{◌≡◌, ◌++◌, ◌∷◌, [], IfOk};
ghost use Rattle.rx_script.specs.Hosts.{has_host};

use rx_model::Host;
use std::alloc::{AllocError, Global};
use std::collections::HashSet;
use std::marker::Model;

/// Hosts in the order in which they were taken, of which one is found without looking at the others.
#[derive(Debug, Drop)]
pub struct Taken {
    hosts: Vec<Host>,
    found: HashSet<(u32, u16)>,
}

impl Model for Taken {
    ghost use Rattle.std.specs.Prelude.{List};
    ghost use Rattle.rx_model.specs.declared.names.Host.{Host};
    ghost use Rattle.rx_script.specs.Found.{AreFound};

    ghost Value = { List Host };

    ghost view = { λ t. t.hosts.items };

    ghost invariant = { λ t. AreFound t.hosts.items t.found };
}

impl Taken {
    /// No host.
    pub fn new(alloc: Global) -> Taken
        ensures { result ≡ [] }
    {
        Taken {
            hosts: Vec::new(alloc),
            found: HashSet::new(alloc),
        }
    }

    /// Whether this is one of them.
    pub fn has(&self, host: Host) -> bool
        ensures { result ≡ has_host self.now host }
    {
        self.found.contains(&(host.addr, host.port))
    }

    /// These and one more.
    pub fn with(self, host: Host) -> Result<Taken, AllocError>
        ensures { IfOk result (λ next. next ≡ self ++ host ∷ []) }
    {
        let Taken {
            mut hosts,
            mut found,
        } = self;
        found.insert((host.addr, host.port))?;
        hosts.push(host)?;
        Ok(Taken { hosts, found })
    }
}
