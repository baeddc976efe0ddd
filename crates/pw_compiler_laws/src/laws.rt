ghost use Rattle.std.specs.Prelude.{◌≡◌, ◌<◌, ℕ, List, [], Bool, false, map, length, All, true, Ok};
ghost use Rattle.pw_code.specs.Entry.{EntryLineModel};
ghost use Rattle.pw_code.specs.Valid.{IsValid, IsCode};
ghost use Rattle.pw_code.specs.Fields.{IsTable};
ghost use Rattle.pw_code.specs.declared.lock.LockRule.{LockRule};
ghost use Rattle.pw_code.specs.declared.field.Field.{Field};
ghost use Rattle.pw_code.specs.declared.field.ScreenTable.{ScreenTable};
ghost use Rattle.pw_data.specs.Layouts.{Laid};
ghost use Rattle.pw_code_meaning.specs.Config.{starting, starting_server};
ghost use Rattle.pw_code_meaning.specs.OfSystem as code;
ghost use Rattle.pw_names.specs.Faults.{program_faults};
ghost use Rattle.pw_onecopy.specs.IsBehaviour.{IsBehaviour};
ghost use Rattle.pw_onecopy.specs.Path.{PathAnswer, FileResult};
ghost use Rattle.pw_forms.specs.Procedures.{procedure_of};
ghost use Rattle.pw_forms.specs.declared.statement.Paragraph.{Paragraph};
ghost use Rattle.pw_forms.specs.declared.statement.Procedure.{Procedure};
ghost use Rattle.pw_operands.specs.Resolved.{Each};
ghost use Rattle.pw_scobol.specs.Requesters.{requester_of};
ghost use Rattle.pw_scobol.specs.Using.{IsParameter};
ghost use Rattle.pw_scobol.specs.declared.requester.Requester.{Requester};
ghost use Rattle.pw_screen.specs.Screens.{screens_of};
ghost use Rattle.pw_server.specs.Servers.{server_of};
ghost use Rattle.pw_server.specs.declared.server.Server.{Server};
ghost use Rattle.pw_tree_meaning.specs.OfDeck as tree;
ghost use Rattle.pw_tree_meaning.specs.Program.{DeckModel, Program};
ghost use Rattle.pw_tree_meaning.specs.Runs.{told, file_told, run_after, server_setting, server_run, start};
ghost use Rattle.pw_tree_meaning.specs.Setting.{Setting};
ghost use Rattle.pw_tree_meaning.specs.Sound.{IsSoundDeck, IsSoundProgram};
ghost use Rattle.pw_text.specs.Tokens.{tokens_of};
ghost use Rattle.pw_text.specs.declared.token.Token.{Token};
ghost use Rattle.pw_compiler_laws.specs.Answered.{AnswersAs};
ghost use Rattle.pw_compiler_laws.specs.Premises.{AreFitting, AreItems, AreRead, DeckCallsFit, HasTables, IsReadStatement, IsShownOf};
ghost use Rattle.pw_compiler_laws.specs.Tokens.{HasSpelledNumber};
ghost use Rattle.pw_tree_meaning.specs.Written.{IsWritten};
ghost use Rattle.pw_compiler_laws.specs.Systems.{named_in, system_of};

/// The code of each program of a deck whose names resolve does what the tree of the program means: a
/// requester over each path, a server on each message over each list of file answers. It comes to the
/// verb that the tree asks, run faults and the count of statements included, and shows the screen that the
/// tree shows. What is taken of the deck besides is `AreFitting`, which docs/design/MACHINE.md says in words.
pub fn program_laws()
    ensures terminals { (rule : LockRule) (deck : DeckModel) → IsSoundDeck deck → AreFitting deck
        → (q : ℕ) → q < length deck.programs → (lines : List EntryLineModel) (path : List PathAnswer)
        → AnswersAs (system_of rule deck) (starting (system_of rule deck) q) (map (told lines) path)
        (run_after deck q lines path) }
    ensures servers { (rule : LockRule) (deck : DeckModel) → IsSoundDeck deck → AreFitting deck
        → (q : ℕ) → q < length deck.servers → (message : List ℕ) (done : List FileResult)
        → let setting : Setting = server_setting deck q message false in
        AnswersAs (system_of rule deck) (starting_server (system_of rule deck) q message)
        (map file_told done)
        (server_run setting (start setting.program (map file_told done))) }
{}

/// A system that is valid behaves by the codes of its programs as its deck does by their trees: so a run
/// of the one is a run of the other, and the paired system may run it. Of the deck `IsSound` and
/// `AreFitting` are taken, and that its system is valid.
pub fn behaviour_laws()
    ensures same { (rule : LockRule) (deck : DeckModel) → IsSoundDeck deck → AreFitting deck
        → IsValid (system_of rule deck)
        → code.behaviour deck.script (system_of rule deck) ≡ tree.behaviour rule deck }
    ensures behaves { (rule : LockRule) (deck : DeckModel) → IsSoundDeck deck → AreFitting deck
        → IsValid (system_of rule deck)
        → IsBehaviour (code.behaviour deck.script (system_of rule deck)) }
{}

/// The codes of a deck are valid in its system: their instructions are those of their side, each number
/// names what is there, each place lies in the storage, and no jump leaves the code. With tables that a
/// deck may say the whole system is valid. Beside what the other laws take, `AreRead` is taken of the
/// number literals, of how many keys and codes there are, of the screens, and of the length of the code.
pub fn code_laws()
    ensures requesters { (rule : LockRule) (deck : DeckModel) → IsSoundDeck deck → AreFitting deck → AreRead deck
        → All (IsCode false (system_of rule deck)) (system_of rule deck).programs }
    ensures servers { (rule : LockRule) (deck : DeckModel) → IsSoundDeck deck → AreFitting deck → AreRead deck
        → All (IsCode true (system_of rule deck)) (system_of rule deck).servers }
    ensures system { (rule : LockRule) (deck : DeckModel) → IsSoundDeck deck → AreFitting deck → AreRead deck
        → HasTables (system_of rule deck) → IsValid (system_of rule deck) }
{}

/// What the readers of screens and of procedures give is what the laws above take of it: a field shows a
/// literal or an item of the layout, and statements are written as their reader sees to. Where the names of
/// a requester have no fault, the arguments of its CALLs are as long as the items of USING. Each name of
/// USING that is a parameter as the contract of `requester` says, is that of an item, and screens that are
/// tables as it says, are such tables here. A number among the tokens of a text is the number that it is
/// written as, of at most 18 digits, and so are then the number literals of the statements that are read of
/// such tokens: those of every requester and of every server that is read.
pub fn reading_laws()
    ensures screens { (text : List ℕ) (tokens : List Token) (laid : Laid) (tables : List ScreenTable)
        → screens_of text tokens laid ≡ Ok tables
        → Each (λ (table : ScreenTable). Each (λ (field : Field). IsShownOf laid field.shown) table.fields)
        tables }
    ensures statements { (server : Bool) (text : List ℕ) (tokens : List Token) (procedure : Procedure)
        → procedure_of server text tokens ≡ Ok procedure
        → Each (λ (paragraph : Paragraph). Each IsWritten paragraph.body) procedure.paragraphs }
    ensures calls { (deck : DeckModel) (program : Program) → IsSoundProgram false deck program
        → program_faults (named_in deck program) ≡ []
        → Each (λ (paragraph : Paragraph). Each (DeckCallsFit deck program) paragraph.body)
        program.paragraphs }
    ensures parameters { (program : Program) → All (IsParameter program.layout) program.parameters
        → AreItems program program.parameters }
    ensures numbers { (text : List ℕ) (first_line : ℕ) (tokens : List Token)
        → tokens_of text first_line ≡ Ok tokens → Each (HasSpelledNumber text) tokens }
    ensures literals { (server : Bool) (text : List ℕ) (tokens : List Token) (procedure : Procedure)
        → Each (HasSpelledNumber text) tokens → procedure_of server text tokens ≡ Ok procedure
        → Each (λ (paragraph : Paragraph). Each IsReadStatement paragraph.body) procedure.paragraphs }
    ensures requester { (name : List ℕ) (text : List ℕ) (first_line : ℕ) (one : Requester)
        → requester_of name text first_line ≡ Ok one
        → Each (λ (paragraph : Paragraph). Each IsReadStatement paragraph.body) one.procedure.paragraphs }
    ensures server { (name : List ℕ) (text : List ℕ) (first_line : ℕ) (one : Server)
        → server_of name text first_line ≡ Ok one
        → Each (λ (paragraph : Paragraph). Each IsReadStatement paragraph.body) one.procedure.paragraphs }
    ensures tables { (program : Program)
        → All (IsTable (length program.layout.storage)) program.screens
        → Each (IsTable (length program.layout.storage)) program.screens }
{}
