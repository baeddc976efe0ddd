ghost use Rattle.std.specs.Prelude.{◌≡◌, ℕ, List, All, Ok};
ghost use Rattle.pw_code.specs.Valid.{IsDeckFile, IsValid};
ghost use Rattle.pw_code.specs.declared.file.FileInfo.{FileInfo};
ghost use Rattle.pw_code.specs.declared.system.System.{System};
ghost use Rattle.pw_code_meaning.specs.OfSystem.{behaviour};
ghost use Rattle.pw_event.specs.declared.script.FailLine.{FailLine};
ghost use Rattle.pw_files.specs.Records.{IsFile};
ghost use Rattle.pw_onecopy.specs.IsBehaviour.{IsBehaviour};
ghost use Rattle.pw_records.specs.Records.{AreAlike, AreRecordsOf, over_records, with_records};
ghost use Rattle.pw_tmf.specs.Starting.{told_at_start};
ghost use Rattle.pw_trail.specs.Files.{files_after, keys_of, told_with};
ghost use Rattle.pw_trail.specs.Format.{units_in};
ghost use Rattle.pw_trail.specs.declared.changes.UnitChanges.{UnitChanges};

/// A system with files of the same names and keys, and so one with other records, is one that a deck may say; and it behaves
/// as before over these records.
pub fn record_laws()
    ensures alike { (system : System) (files : List FileInfo) → AreAlike files system.files → IsValid system
        → All IsDeckFile files → IsValid (record system { files = files }) }
    ensures valid { (system : System) (records : ℕ → List (List ℕ)) → IsValid system → AreRecordsOf system records
        → IsValid (with_records system records) }
    ensures same { (script : List FailLine) (system : System) (records : ℕ → List (List ℕ))
        → AreRecordsOf system records
        → behaviour script (with_records system records) ≡ over_records (behaviour script system) records }
    ensures behaves { (script : List FailLine) (system : System) (records : ℕ → List (List ℕ))
        → AreRecordsOf system records → IsBehaviour (behaviour script system)
        → IsBehaviour (over_records (behaviour script system) records) }
{}

/// What a trail of such files leads to are records of the system; and what a disc tells that has them is what one of the
/// system with these records tells at its start.
pub fn found_laws()
    ensures found { (files : List FileInfo) (system : System) (bytes : List ℕ) (units : List UnitChanges)
        → AreAlike files system.files → units_in files bytes ≡ Ok units
        → ((f : ℕ) → IsFile (keys_of files f) (files_after files units f))
        → AreRecordsOf system (files_after files units) }
    ensures told { (files : List FileInfo) (system : System) (records : ℕ → List (List ℕ))
        → AreAlike files system.files → AreRecordsOf system records
        → told_with (record system { files = files }) records ≡ told_at_start (with_records system records) }
{}
