ghost use Rattle.std.specs.Prelude.{◌≡◌, ℕ, List, [], length, Some, true};
ghost use Rattle.pw_code.specs.declared.context.Context.{Context};
ghost use Rattle.pw_image.specs.Format.{IsImageOf};
ghost use Rattle.pw_image.specs.Image.{HasImage, image_of};
ghost use Rattle.pw_image.specs.Reading.{context_in};
ghost use Rattle.pw_image.specs.Values.{AreBytes, HasValues};
ghost use Rattle.std.specs.List.{list_all};
ghost use Rattle.pw_image.specs.Records.{changed_records, is_rising, lies_in, patched};

/// The records that differ between two images of one length, put into the old one, give the new one. Each lies in the
/// old image, their numbers rise, and between equal images there are none.
pub fn change_laws()
    ensures patch { (old new : List ℕ) → length old ≡ length new → patched old (changed_records old new) ≡ new }
    ensures within { (old new : List ℕ) → length old ≡ length new
        → list_all (lies_in old) (changed_records old new) ≡ true }
    ensures rising { (old new : List ℕ) → is_rising (changed_records old new) ≡ true }
    ensures none { (image : List ℕ) → changed_records image image ≡ [] }
{}

/// The image of a context that has one is read as this context, and bytes that are read as a context are its image.
/// So no two contexts have one image, and no context has two.
pub fn image_laws()
    ensures again { (context : Context) → HasImage context → HasValues context
        → context_in (image_of context) ≡ Some context }
    ensures only { (bytes : List ℕ) (context : Context) → AreBytes bytes → context_in bytes ≡ Some context
        → IsImageOf bytes context }
{}
