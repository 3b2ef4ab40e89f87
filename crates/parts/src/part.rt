// What is done to a core as a whole.
ghost use Rattle.std.specs.Prelude.{◌≡◌};
ghost use Rattle.rules.specs.Commands.{disable};

use crate::slot;
use rules::Core;

// Disabled, and a running wait dropped.
pub fn disabled(mut c: Core) -> Core
    ensures { result ≡ disable c }
{
    c.enabled = false;
    c.slot = slot::no_slot();
    c
}
