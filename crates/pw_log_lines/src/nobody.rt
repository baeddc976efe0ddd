ghost use Rattle.std.specs.Prelude.{◌≡◌};
ghost use Rattle.pw_code.specs.Valid.{HasNames};
ghost use Rattle.pw_log_lines.specs.Grammar.{nobody};

use pw_base::list::List;
use pw_code::lock::LockRule;
use pw_code::system::System;
use std::alloc::Global;

/// A system in which nothing has a name: a line is outside the grammar exactly where it is so in this
/// system. It takes no memory.
pub fn nobody(alloc: Global, rule: LockRule) -> System
    ensures system { result ≡ nobody rule }
    ensures names { HasNames result }
{
    System {
        programs: List::new(alloc),
        servers: List::new(alloc),
        screens: List::new(alloc),
        classes: List::new(alloc),
        files: List::new(alloc),
        tcps: List::new(alloc),
        terminals: List::new(alloc),
        rule,
    }
}
