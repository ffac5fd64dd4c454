// A console is told bytes.
ghost use Rattle.tx_place.specs.Console.{ConsoleState, Says, Complains};

use crate::CallError;

/// What is said, and what is complained. `specs/Console.antt` says all that each call does.
pub trait Console {
    ghost state: { Self → ConsoleState };

    /// Adds the bytes to those said. After a refusal a prefix of them was added.
    fn say(&mut self, bytes: &[u8]) -> Result<(), CallError>
        ensures does { Says result bytes.now (state self.old) (state self.new) };

    /// Adds the bytes to those complained, in the same way.
    fn complain(&mut self, bytes: &[u8]) -> Result<(), CallError>
        ensures does { Complains result bytes.now (state self.old) (state self.new) };
}
