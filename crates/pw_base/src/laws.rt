ghost use Rattle.std.specs.Prelude.{◌≡◌, List, [], ◌++◌, Option, Some, None, IsTrue, length, slice_get};
ghost use Rattle.pw_base.specs.declared.fault.Fault.{Fault};
ghost use Rattle.pw_base.specs.declared.fault_code.FaultCode.{FaultCode};
ghost use Rattle.pw_base.specs.FaultCodes.{fault_codes, place, are_ascending};
ghost use Rattle.pw_base.specs.First.{least, IsAmong, NoneBefore};

/// What the first of some faults is: it may be found part by part, it is there wherever there is a
/// fault, and it is one of them with none before it.
pub fn first_fault_laws()
    ensures append { (known : Option Fault) (xs ys : List Fault)
        → least known (xs ++ ys) ≡ least (least known xs) ys }
    ensures none { (faults : List Fault) → least None faults ≡ None → faults ≡ [] }
    ensures some { (faults : List Fault) (fault : Fault) → least None faults ≡ Some fault
        → IsAmong fault faults × NoneBefore fault faults }
{}

/// The order of the codes: each stands at its place in the list of all 35, and the numbers rise.
pub fn fault_code_laws()
    ensures count { length fault_codes ≡ 35 }
    ensures places { (code : FaultCode) → slice_get fault_codes (place code) ≡ Some code }
    ensures ascending { IsTrue (are_ascending fault_codes) }
{}
