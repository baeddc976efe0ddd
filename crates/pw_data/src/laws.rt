ghost use Rattle.std.specs.Prelude.{◌≡◌, ℕ, List, ◌∷◌, Bool, Ok, length, take_while, drop};
ghost use Rattle.pw_text.specs.declared.token.Token.{Token};
ghost use Rattle.pw_data.specs.declared.entry.Entry.{Entry};
ghost use Rattle.pw_data.specs.Tree.{Node, stands_in, forest};
ghost use Rattle.pw_data.specs.Layouts.{Laid, layout_of};
ghost use Rattle.pw_data.specs.Store.{store_of, IsStoreOf, AreApart};

/// The storage of a layout is the characters of its store, one cell behind the other, and each cell
/// begins where its item says. No two of them overlap, and together they cover the storage.
pub fn storage_laws()
    ensures store { (text : List ℕ) (tokens : List Token) (server : Bool) (layout : Laid)
        → layout_of text tokens server ≡ Ok layout
        → IsStoreOf layout (store_of text tokens server) }
    ensures apart { (text : List ℕ) (tokens : List Token) (server : Bool) (layout : Laid)
        → layout_of text tokens server ≡ Ok layout
        → AreApart layout.items (store_of text tokens server) }
{}

/// The members of an entry are the entries behind it up to the next one that may not belong to it.
pub fn tree_laws()
    ensures members { (entry : Entry) (entries : List Entry)
        → forest (entry ∷ entries)
        ≡ Node entry (forest (take_while (stands_in entry) entries))
        (forest (drop (length (take_while (stands_in entry) entries)) entries)) }
{}
