ghost use Rattle.std.specs.Prelude.{◌≡◌, ℕ, List, []};
ghost use Rattle.pw_event.specs.Due.{owner_of};
ghost use Rattle.pw_event.specs.declared.event.Event.{Event};
ghost use Rattle.pw_event.specs.declared.script.Owner.TheVariants.{Tcp};
ghost use Rattle.pw_onecopy.specs.Behaviour.{Behaviour};
ghost use Rattle.pw_onecopy.specs.Path.{PathAnswer};
ghost use Rattle.pw_pair.specs.Called.{MayBeCalled, pair_after_call};
ghost use Rattle.pw_pair.specs.Follows.{AreTerminalsOfPair, Follows, held_of};
ghost use Rattle.pw_pair.specs.Pairs.{SeenPair, changed_at};
ghost use Rattle.pw_pair.specs.Seats.{built, seats_with};
ghost use Rattle.pw_pair.specs.Takeover.{resumed_image};
ghost use Rattle.pw_pair.specs.declared.mode.Mode.TheVariants.{Alone};
ghost use Rattle.pw_paired.specs.Failure.{resumed_path};
ghost use Rattle.pw_paired.specs.State.{BackupCopy, LastEnded, State, starting};
ghost use Rattle.pw_paired.specs.Step.{Legal, effect};

/// A pair that follows the paired system follows it behind each legal entry, once the entry's call
/// is made, whatever the images of paths are: a new pair follows the start; RAISE, the CHECKs,
/// APPLIED, FAIL TCP, TAKEOVER and END are the calls of their pair, every other entry is none, and
/// each call may be made where its entry is legal; a message may be built at any time; and a
/// takeover goes on with the image of the path that the takeover rule names.
pub fn call_laws()
    ensures starts { (image : ℕ → List PathAnswer → List ℕ) (sys : Behaviour) (p : ℕ)
        (terminals : List ℕ) → AreTerminalsOfPair sys p terminals
        → Follows image sys (starting sys) p
        (record { mode = Alone; seats = seats_with [] terminals }) }
    ensures follows { (image : ℕ → List PathAnswer → List ℕ) (sys : Behaviour) (state : State)
        (p : ℕ) (pair : SeenPair) (entry : Event) → Follows image sys state p pair
        → Legal sys state entry
        → Follows image sys (effect sys state entry) p (pair_after_call image sys state entry p pair) }
    ensures may { (image : ℕ → List PathAnswer → List ℕ) (sys : Behaviour) (state : State)
        (p : ℕ) (pair : SeenPair) (entry : Event) → Follows image sys state p pair
        → Legal sys state entry → owner_of sys.pair_of entry ≡ Tcp p
        → MayBeCalled sys entry pair }
    ensures builds { (image : ℕ → List PathAnswer → List ℕ) (sys : Behaviour) (state : State)
        (p t : ℕ) (pair : SeenPair) → Follows image sys state p pair
        → Follows image sys state p (changed_at t built pair) }
    ensures resumes { (image : List PathAnswer → List ℕ) (t : ℕ) (copy : BackupCopy)
        (last : LastEnded)
        → resumed_image (held_of image t copy) last.number ≡ image (resumed_path copy last) }
{}
