ghost use Rattle.std.specs.Prelude.{◌≡◌, ◌+◌, ◌-◌, ◌<◌, ◌^◌, List, min};
ghost use Rattle.pw_code.specs.declared.context.Context.{Context as SeenContext};
ghost use Rattle.pw_code_meaning.specs.Counts.{CountsOf};
ghost use Rattle.pw_onecopy.specs.Path.{PathAnswer, next_number, standing};
ghost use Rattle.pw_tcp.specs.Refreshes.{StandsAt};

use pw_code::context::Context;

/// The next refresh number of a program at work: phase, attempt and the number of the refresh in
/// them. Where the context's registers are those of where a path stands, it is the path's next one
/// (docs/design/ARCHITECTURE.md). It takes no memory.
pub fn refresh(context: &Context) -> (u32, u32, u32)
    ensures number { result
        ≡ (context.now.phase, context.now.attempt, min (context.now.shown + 1) (2 ^ 32 - 1)) }
    ensures next { (path : List PathAnswer) → StandsAt context.now (standing path)
        → (standing path).shown < 2 ^ 32 - 1
        → record { phase = result.0; attempt = result.1; k = result.2 } ≡ next_number path }
{
    let shown = context.shown.saturating_add(1);
    (context.phase, context.attempt, shown)
}

/// Where the counts of a context are those of a path, its registers are those of where the path
/// stands.
pub fn register_laws()
    ensures { (path : List PathAnswer) (context : SeenContext) → CountsOf path context
        → StandsAt context (standing path) }
{}
