ghost use Rattle.std.specs.Prelude.{◌≡◌};
ghost use Rattle.exec_script.specs.Spelling.{ScopeNames};

use exec_msg::EntityNo;

/// The names that a script may use, each with the number of what it names. They are the topics of the whole document, and the
/// clients and servers of the script's own node.
pub trait Scope {
    ghost names: { Self → ScopeNames };

    /// The topic of this name.
    fn topic(&self, name: &str) -> Option<EntityNo>
        ensures { result ≡ (names self.now).topic name.now };

    /// The service client of this name.
    fn client(&self, name: &str) -> Option<EntityNo>
        ensures { result ≡ (names self.now).client name.now };

    /// The action client of this name.
    fn action_client(&self, name: &str) -> Option<EntityNo>
        ensures { result ≡ (names self.now).action_client name.now };

    /// The action server of this name.
    fn server(&self, name: &str) -> Option<EntityNo>
        ensures { result ≡ (names self.now).server name.now };
}
