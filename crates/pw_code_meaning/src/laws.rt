ghost use Rattle.std.specs.Prelude.{◌≡◌, ℕ, [], ◌∷◌, ◌++◌, ◌+◌, ◌<◌, ◌≤◌, All, true, length, List, Some, map, slice_get};
ghost use Rattle.pw_base.specs.Limits.{most_storage};
ghost use Rattle.pw_code.specs.Valid.{IsValid};
ghost use Rattle.pw_code.specs.declared.context.Context.{Context};
ghost use Rattle.pw_code.specs.declared.context.Frame.{Frame};
ghost use Rattle.pw_code.specs.declared.system.System.{System};
ghost use Rattle.pw_code.specs.declared.system.TermInfo.{TermInfo};
ghost use Rattle.pw_code.specs.declared.verb.Answer.{Answer};
ghost use Rattle.pw_code.specs.declared.verb.Verb.{Verb};
ghost use Rattle.pw_event.specs.declared.script.FailLine.{FailLine};
ghost use Rattle.pw_code_meaning.specs.Config.{Config, starting, starting_server};
ghost use Rattle.pw_code_meaning.specs.Contexts.{RunsOn, PutsAnswer};
ghost use Rattle.pw_code_meaning.specs.Counts.{CountsOf};
ghost use Rattle.pw_code_meaning.specs.OfSystem.{behaviour, told};
ghost use Rattle.pw_code_meaning.specs.Runs.{Comes, StandsFor, StandsForFiles, StandsFrom, config_after_answers, at_verb};
ghost use Rattle.pw_code_meaning.specs.Sound.{IsSoundContext};
ghost use Rattle.pw_onecopy.specs.IsBehaviour.{IsPath};
ghost use Rattle.pw_onecopy.specs.Path.{PathAnswer};

/// A context that runs on to its next verb still stands for its answers; one that takes an answer stands for one
/// more. At a verb one context alone stands for given answers.
pub fn context_laws()
    ensures runs { (system : System) (start : Config) (answers : List Answer) (old new : Context) (verb : Verb)
        → StandsFrom system start answers old → RunsOn system old new verb → StandsFrom system start answers new }
    ensures answers { (system : System) (start : Config) (answers : List Answer) (a : Answer) (old new : Context)
        → StandsFrom system start answers old → old.at_verb ≡ true → PutsAnswer system a old new
        → StandsFrom system start (answers ++ a ∷ []) new }
    ensures one { (system : System) (start : Config) (answers : List Answer) (a b : Context)
        → StandsFrom system start answers a → StandsFrom system start answers b
        → a.at_verb ≡ true → b.at_verb ≡ true → a ≡ b }
    ensures starts { (system : System) (start : Config) → Comes system start [] start }
{}

/// The verb that follows answers is the one to which the code comes: fewer steps than are made come before it.
pub fn verb_laws()
    ensures terminals { (system : System) (program : ℕ) (answers : List Answer) (at : Config)
        → IsValid system → Comes system (starting system program) answers at → at_verb at ≡ true
        → config_after_answers system (starting system program) answers ≡ at }
    ensures servers { (system : System) (server : ℕ) (message : List ℕ) (answers : List Answer) (at : Config)
        → IsValid system → Comes system (starting_server system server message) answers at → at_verb at ≡ true
        → config_after_answers system (starting_server system server message) answers ≡ at }
{}

/// The counts of a context are those of the path for which it stands: its units, its next refresh number, its entry
/// lines, and whether it is in a transaction.
pub fn count_laws()
    ensures { (script : List FailLine) (system : System) (t : ℕ) (terminal : TermInfo) (path : List PathAnswer)
        (context : Context)
        → IsValid system → slice_get system.terminals t ≡ Some terminal → IsPath (behaviour script system) t path
        → StandsFor system terminal.program (map (told terminal.entries) path) context → CountsOf path context }
{}

/// The context of a terminal's program, over whatever answers, is sound, and so is that of a server; and each program
/// at work of a terminal has at most as many characters as a code may have and a CALL keeps.
pub fn sound_laws()
    ensures sound { (system : System) (program : ℕ) (answers : List Answer) (context : Context)
        → IsValid system → program < length system.programs → StandsFor system program answers context
        → IsSoundContext system context }
    ensures servers { (system : System) (server : ℕ) (message : List ℕ) (answers : List Answer) (context : Context)
        → IsValid system → server < length system.servers → StandsForFiles system server message answers context
        → IsSoundContext system context }
    ensures small { (system : System) (program : ℕ) (answers : List Answer) (context : Context)
        → IsValid system → program < length system.programs → StandsFor system program answers context
        → All (λ (frame : Frame). length frame.storage ≤ most_storage + 9) context.frames }
{}
