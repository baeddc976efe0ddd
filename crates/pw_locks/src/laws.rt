ghost use Rattle.std.specs.Prelude.{◌≡◌, ◌↔◌, ◌⊎◌, ℕ, List, true, false, IsTrue};
ghost use Rattle.pw_code.specs.declared.lock.LockMode.TheVariants.{Shared as IsShared};
ghost use Rattle.pw_locks.specs.Conflicts.{conflict, exclude, is_same_unit};
ghost use Rattle.pw_locks.specs.Spans.{overlap, Covers, HaveCommonKey, IsOpenEnded};
ghost use Rattle.pw_locks.specs.declared.lock.Lock.{Lock};
ghost use Rattle.pw_locks.specs.declared.span.Span.{Span};
ghost use Rattle.pw_locks.specs.declared.span.Span.TheVariants.{Point};

/// Of two locks either conflicts with the other or neither; a unit never conflicts with itself; locks of two units
/// conflict exactly where they overlap in one file and are not both shared; and two shared locks never conflict.
pub fn conflict_laws()
    ensures symmetric { (a b : Lock) → conflict a b ≡ conflict b a }
    ensures own { (a b : Lock) → is_same_unit a.unit b.unit ≡ true → conflict a b ≡ false }
    ensures others { (a b : Lock) → is_same_unit a.unit b.unit ≡ false → conflict a b ≡ exclude a.file a.span a.mode b }
    ensures shared { (a b : Lock) → a.mode ≡ IsShared → b.mode ≡ IsShared → conflict a b ≡ false }
{}

/// A span overlaps exactly the points that it covers, which for a span (low, high] are the keys above its low end
/// and not above its high one; and two spans overlap exactly where they have a key in common, or neither has an
/// upper end.
pub fn span_laws()
    ensures points { (span : Span) (key : List ℕ) → IsTrue (overlap span (Point key)) ↔ Covers span key }
    ensures common { (a b : Span) → IsTrue (overlap a b) ↔ (HaveCommonKey a b ⊎ (IsOpenEnded a × IsOpenEnded b)) }
{}
