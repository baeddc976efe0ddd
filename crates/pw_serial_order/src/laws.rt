ghost use Rattle.std.specs.Prelude.{◌≡◌, ◌++◌, ◌∷◌, [], List, map};
ghost use Rattle.pw_event.specs.declared.event.Event.{Event};
ghost use Rattle.pw_onecopy.specs.Behaviour.{Behaviour};
ghost use Rattle.pw_serial_order.specs.Order.{blocks_behind, entry_order, last_order, told};
ghost use Rattle.pw_paired.specs.Serial.{blocks};

/// The blocks of the entries of a log grow by those of each further entry; and with those at its end
/// they are its serial order, without the numbers of answers.
pub fn orders_are_whole()
    ensures start { (sys : Behaviour) → entry_order sys [] ≡ [] }
    ensures grows { (sys : Behaviour) (log : List Event) (entry : Event)
        → entry_order sys (log ++ entry ∷ []) ≡ entry_order sys log ++ blocks_behind sys log entry }
    ensures whole { (sys : Behaviour) (log : List Event)
        → entry_order sys log ++ last_order sys log ≡ map told (blocks sys log) }
{}
