ghost use Rattle.std.specs.Prelude.{◌≡◌, ◌≤◌, ◌++◌, ◌∷◌, [], ℕ, max, List, Bool, true, false, length, map, slice_get, Option, Some, None, IsSome, Ok};
ghost use Rattle.pw_text.specs.declared.token.Token.{Token};
ghost use Rattle.pw_data.specs.declared.item.Item.{Item};
ghost use Rattle.pw_data.specs.Store.{IsStoreOf};
ghost use Rattle.pw_words.specs.Words.{Word};
ghost use Rattle.pw_forms.specs.declared.cond.ConditionForm.{ConditionForm};
ghost use Rattle.pw_forms.specs.declared.statement.Procedure.{Procedure};
ghost use Rattle.pw_forms.specs.Procedures.{procedure_of};
ghost use Rattle.pw_operands.specs.Resolved.{Each};
ghost use Rattle.pw_operands.specs.Variables.{register_of};
ghost use Rattle.pw_code.specs.declared.lock.LockRule.{LockRule};
ghost use Rattle.pw_code.specs.declared.verb.Verb.TheVariants as verb;
ghost use Rattle.pw_onecopy.specs.IsBehaviour.{IsBehaviour, IsPath};
ghost use Rattle.pw_onecopy.specs.Path.{PathAnswer, Failed, is_outside};
ghost use Rattle.pw_tree_meaning.specs.Store.{Store, Spot, spot_of, chars_at, put_at, initial_store};
ghost use Rattle.pw_tree_meaning.specs.State.{ProgramState, Out, faults};
ghost use Rattle.pw_tree_meaning.specs.Program.{Program, DeckModel, item_named, program_at};
ghost use Rattle.pw_tree_meaning.specs.Setting.{Setting};
ghost use Rattle.pw_tree_meaning.specs.Conditions.{holds};
ghost use Rattle.pw_tree_meaning.specs.Performs.{turns_until, budget};
ghost use Rattle.pw_tree_meaning.specs.Runs.{performed, setting_of, server_setting, called};
ghost use Rattle.pw_tree_meaning.specs.Restarts.{NeverRestarts};
ghost use Rattle.pw_tree_meaning.specs.Sound.{HasForms, IsLayout, IsSoundDeck};
ghost use Rattle.pw_tree_meaning.specs.OfDeck.{ask, behaviour};

/// Putting characters into an item changes no item but by its characters, and no item's size.
pub fn store_laws()
    ensures sizes { (spot : Spot) (chars : List ℕ) (store : Store)
        → map (λ cell. length cell.chars) (put_at spot chars store)
        ≡ map (λ cell. length cell.chars) store }
    ensures items { (spot : Spot) (chars : List ℕ) (store : Store)
        → map (λ cell. cell.item) (put_at spot chars store) ≡ map (λ cell. cell.item) store }
{}

/// What is read of a procedure without a fault has the statements of its side alone: those of
/// servers, or those of requesters.
pub fn form_laws()
    ensures { (server : Bool) (text : List ℕ) (tokens : List Token) (procedure : Procedure)
        → procedure_of server text tokens ≡ Ok procedure
        → Each (λ paragraph. Each (HasForms server) paragraph.body) procedure.paragraphs }
{}

/// A program starts with a store of its data: the characters of its items are its storage, and each
/// begins where its item says. In each store that it comes to, every occurrence of every item, a
/// group's too, has as many characters as the item is long. No item has the name of a register.
pub fn initial_laws()
    ensures store { (server : Bool) (program : Program) → IsLayout server program.layout
        → IsStoreOf program.layout (initial_store program) }
    ensures long { (server : Bool) (program : Program) (store : Store)
        → IsLayout server program.layout
        → map (λ cell. length cell.chars) store
        ≡ map (λ cell. length cell.chars) (initial_store program)
        → (i k : ℕ) (item : Item) → slice_get program.layout.items i ≡ Some item
        → 1 ≤ k → k ≤ max item.occurs 1
        → length (chars_at (spot_of item k) store) ≡ item.size }
    ensures unnamed { (server : Bool) (program : Program) (name : Word)
        → IsLayout server program.layout → IsSome (register_of server name)
        → item_named program name ≡ None }
{}

/// PERFORM UNTIL never makes as many turns as its budget has: with more of them it does the same,
/// in requesters and in servers.
pub fn until_laws()
    ensures requesters { (deck : DeckModel) (q d n used more : ℕ) (name : Word) (cond : ConditionForm) (s : ProgramState)
        → let test : ProgramState → Option Bool = λ t. holds (program_at deck.programs q) t cond in
        let turn : ProgramState → Out = performed d (setting_of deck q) (called n deck used) name in
        budget s ≤ more → turns_until more test turn s ≡ turns_until (budget s) test turn s }
    ensures servers { (deck : DeckModel) (q d more : ℕ) (message : List ℕ) (name : Word) (cond : ConditionForm)
        (s : ProgramState)
        → let test : ProgramState → Option Bool = λ t. holds (program_at deck.servers q) t cond in
        let setting : Setting = server_setting deck q message false in
        let turn : ProgramState → Out = performed d setting (λ p arguments t. faults 202 t) name in
        budget s ≤ more → turns_until more test turn s ≡ turns_until (budget s) test turn s }
{}

/// In every deck, whatever its programs are: BEGIN-TRANSACTION and STOP RUN are asked outside
/// transactions alone, END-, ABORT- and RESTART-TRANSACTION inside them; and a server's run fault
/// is that of the program that sent.
pub fn unit_laws()
    ensures begins { (rule : LockRule) (deck : DeckModel) (t : ℕ) (path : List PathAnswer)
        → IsPath (behaviour rule deck) t path → ask deck t path ≡ verb.Begin
        → is_outside path ≡ true }
    ensures stops { (rule : LockRule) (deck : DeckModel) (t : ℕ) (path : List PathAnswer)
        → IsPath (behaviour rule deck) t path → ask deck t path ≡ verb.Stop
        → is_outside path ≡ true }
    ensures ends { (rule : LockRule) (deck : DeckModel) (t : ℕ) (path : List PathAnswer)
        → IsPath (behaviour rule deck) t path → ask deck t path ≡ verb.End
        → is_outside path ≡ false }
    ensures drops { (rule : LockRule) (deck : DeckModel) (t : ℕ) (path : List PathAnswer)
        → IsPath (behaviour rule deck) t path → ask deck t path ≡ verb.Drop
        → is_outside path ≡ false }
    ensures redoes { (rule : LockRule) (deck : DeckModel) (t : ℕ) (path : List PathAnswer)
        → IsPath (behaviour rule deck) t path → ask deck t path ≡ verb.Redo
        → is_outside path ≡ false }
    ensures fails { (rule : LockRule) (deck : DeckModel) (t c x : ℕ) (message : List ℕ)
        (path : List PathAnswer)
        → IsPath (behaviour rule deck) t path → ask deck t path ≡ verb.Send c message
        → ask deck t (path ++ Failed x ∷ []) ≡ verb.Fault x }
{}

/// A deck whose names resolve and whose tables are valid behaves as the paired system asks of every
/// deck: what terminals ask, and where; what follows a server's fault; that messages go to classes
/// that are there; that operations name files that are there, with keys and records of their
/// lengths; and that a server's operations add up to what it comes to by itself.
pub fn deck_laws()
    ensures { (rule : LockRule) (deck : DeckModel) → IsSoundDeck deck → IsBehaviour (behaviour rule deck) }
{}

/// Where no program has a RESTART-TRANSACTION, none is asked.
pub fn restart_laws()
    ensures never { (rule : LockRule) (deck : DeckModel) (t : ℕ) (path : List PathAnswer)
        → NeverRestarts deck.programs → IsPath (behaviour rule deck) t path
        → ask deck t path ≡ verb.Redo → ⊥ }
{}
