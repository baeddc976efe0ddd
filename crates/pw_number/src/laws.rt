ghost use Rattle.std.specs.Prelude.{◌≡◌, ◌≤◌, ℕ, ◌↔◌};
ghost use Rattle.std.specs.Ordering.{int_cmp};
ghost use Rattle.std.specs.Cmp.{IsTotalOrder};
ghost use Rattle.std.specs.declared.cmp.Ordering.TheVariants.{Equal};
ghost use Rattle.pw_number.specs.Number.{Number};
ghost use Rattle.pw_number.specs.Arithmetic.{raised};
ghost use Rattle.pw_number.specs.Order.{order, SameValue};

/// What `compare` says: at any common places the numbers compare as their units do; it is a total
/// order, up to numbers of one value, which are exactly those that it calls equal.
pub fn order_laws()
    ensures units { (a b : Number) (places : ℕ) → a.places ≤ places → b.places ≤ places
        → order a b ≡ int_cmp (raised places a) (raised places b) }
    ensures total { IsTotalOrder order }
    ensures equal { (a b : Number) → (order a b ≡ Equal) ↔ SameValue a b }
{}
