ghost use Rattle.std.specs.Prelude.{ℕ, ◌≤◌};
ghost use Rattle.pw_gen.specs.Generated.{generated};
ghost use Rattle.pw_gen.specs.Faultless.{IsFaultless};

/// A generated deck has no fault, whatever its seed, for 1 to 64 terminals (docs/guide/COMMANDS.md).
pub fn generated_laws()
    ensures faultless { (seed terminals : ℕ) → 1 ≤ terminals → terminals ≤ 64 → IsFaultless (generated seed terminals) }
{}
