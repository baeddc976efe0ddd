ghost use Rattle.std.specs.Prelude.{◌≡◌, ℕ, List, Bool, false, IsTrue};
ghost use Rattle.pw_number.specs.Number.{Number, number};
ghost use Rattle.pw_number.specs.Sign.{signed};
ghost use Rattle.pw_picture.specs.declared.picture.Picture.{Picture};
ghost use Rattle.pw_picture.specs.declared.picture.Picture.TheVariants.{Number as NumberPicture};
ghost use Rattle.pw_picture.specs.Stored.{size_at, is_negative, moved, is_kept, stored, read_of};

/// Where a number is kept, storing it leaves what moving it leaves, and reading that gives the value,
/// cut toward zero to the picture's places. Where it is not, storing leaves what was there.
pub fn store_laws()
    ensures agrees { (picture : Picture) (n : Number) (chars : List ℕ) → IsTrue (is_kept picture n)
        → stored picture n chars ≡ moved picture n }
    ensures refuses { (picture : Picture) (n : Number) (chars : List ℕ) → is_kept picture n ≡ false
        → stored picture n chars ≡ chars }
    ensures read { (digits places : ℕ) (sign : Bool) (n : Number) → IsTrue (is_kept (NumberPicture digits places sign) n)
        → read_of (NumberPicture digits places sign) (moved (NumberPicture digits places sign) n)
        ≡ number (signed (is_negative n) (size_at places n)) places }
{}
