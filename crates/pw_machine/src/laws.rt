ghost use Rattle.std.specs.Prelude.{◌<◌, ℕ, List, length};
ghost use Rattle.pw_code.specs.declared.context.Context.{Context};
ghost use Rattle.pw_code.specs.declared.system.System.{System};
ghost use Rattle.pw_code.specs.declared.verb.Answer.{Answer};
ghost use Rattle.pw_code_meaning.specs.Runs.{StandsFor, StandsForFiles};
ghost use Rattle.pw_machine.specs.Stack.{HasRoom};

/// A context that stands for fewer than a million answers has room for one more.
pub fn room_laws()
    ensures terminals { (system : System) (program : ℕ) (path : List Answer) (context : Context)
        → StandsFor system program path context → length path < 1000000 → HasRoom context }
    ensures servers { (system : System) (server : ℕ) (message : List ℕ) (done : List Answer) (context : Context)
        → StandsForFiles system server message done context → length done < 1000000 → HasRoom context }
{}
