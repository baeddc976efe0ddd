ghost use Rattle.std.specs.Prelude.{◌≡◌, ◌↔◌, ℕ, List, true};
ghost use Rattle.pw_event.specs.declared.event.Event.{Event};
ghost use Rattle.pw_onecopy.specs.IsBehaviour.{IsBehaviour};
ghost use Rattle.pw_onecopy.specs.OneCopy.{IsSerial, LegalBlock, Machine};
ghost use Rattle.pw_onecopy.specs.Path.{PathAnswer};
ghost use Rattle.pw_onecopy.specs.Blocks.{SerialBlock};
ghost use Rattle.pw_paired.specs.State.{State};
ghost use Rattle.pw_paired.specs.Step.{IsRun, Legal, after};
ghost use Rattle.pw_onecopy.specs.Behaviour.{Behaviour};
ghost use Rattle.pw_laws.specs.legal.Blocks.{is_legal_block, is_serial};
ghost use Rattle.pw_laws.specs.legal.Causes.{JobsAreThere};
ghost use Rattle.pw_laws.specs.legal.Legality.{is_by_conflict, is_legal, is_run};
ghost use Rattle.pw_laws.specs.legal.Values.{is_same_path};

/// An entry that passes the test is legal, and a legal one passes it: a restart or a suspension by
/// a conflict of locks where only processes of the system's classes work, and every other entry in
/// every state.
pub fn legality_laws()
    ensures sound { (sys : Behaviour) (state : State) (entry : Event)
        → is_legal sys state entry ≡ true → Legal sys state entry }
    ensures complete { (sys : Behaviour) (state : State) (entry : Event)
        → (is_by_conflict entry ≡ true → JobsAreThere sys state)
        → Legal sys state entry → is_legal sys state entry ≡ true }
{}

/// In every run of a deck only processes of the system's classes work, so the test of legality
/// misses nothing; and a log is a run exactly where each of its entries passes.
pub fn run_laws()
    ensures jobs { (sys : Behaviour) → IsBehaviour sys → (log : List Event) → IsRun sys log
        → JobsAreThere sys (after sys log) }
    ensures entries { (sys : Behaviour) → IsBehaviour sys → (log : List Event) → IsRun sys log
        → (entry : Event)
        → (is_legal sys (after sys log) entry ≡ true) ↔ Legal sys (after sys log) entry }
    ensures logs { (sys : Behaviour) → IsBehaviour sys → (log : List Event)
        → (is_run sys log ≡ true) ↔ IsRun sys log }
{}

/// The test of two paths tells exactly whether they are one.
pub fn path_laws()
    ensures { (one other : List PathAnswer) → (is_same_path one other ≡ true) ↔ (one ≡ other) }
{}

/// A block that passes the test is legal in the one-copy machine, and a legal one passes it; the
/// machine is defined on a list of blocks exactly where each passes.
pub fn block_laws()
    ensures blocks { (sys : Behaviour) (machine : Machine) (block : SerialBlock)
        → (is_legal_block sys machine block ≡ true) ↔ LegalBlock sys machine block }
    ensures orders { (sys : Behaviour) (order : List SerialBlock)
        → (is_serial sys order ≡ true) ↔ IsSerial sys order }
{}
