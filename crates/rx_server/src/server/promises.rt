//! What a server promises of its calls, whatever bytes came to it.
ghost use Rattle.std.specs.Prelude.{◌≡◌, ℕ, List};
ghost use Rattle.rx_model.specs.declared.event.Event.{Event};
ghost use Rattle.rx_model.specs.declared.names.CallName.{CallName};
ghost use Rattle.rx_rules.specs.Classes.{token};
ghost use Rattle.rx_history.specs.Counts.{Once};
ghost use Rattle.rx_history.specs.Alone.{Entered};
ghost use Rattle.rx_history.specs.Alone.{ForgotNone};
ghost use Rattle.rx_node.specs.Node.{setup_of};
ghost use Rattle.rx_server.specs.Server.{Stands};

use crate::server::Server;
use rx_class::Class;

impl<C: Class> Server<C> {
    /// In each history for which it stands and in which it forgot no connection, it accepted no call twice.
    pub fn accepts_once(&self)
        ensures { (h : List Event) → Stands C.class_of self.now h →
            ForgotNone (setup_of C.class_of self.now.node) h → Once h }
    {
        let _ = &self.node;
    }

    /// In each history for which it stands, where its class is that of a key, it accepted only calls of clients that
    /// had shown the key.
    pub fn enters_when_proved(&self)
        ensures { (h : List Event) (key : List ℕ) (c : CallName) → Stands C.class_of self.now h →
            (setup_of C.class_of self.now.node).class ≡ token key →
            Entered (setup_of C.class_of self.now.node) key c h }
    {
        let _ = &self.node;
    }
}
