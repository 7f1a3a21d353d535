//! Laws of the regions of programs.
ghost use Rattle.std.specs.Prelude.{ℕ, ◌≡◌, ◌<◌, Bool, true, List, Some, length, slice_get};
ghost use Rattle.cxx_ast.specs.declared.types.Ty.{Ty};
ghost use Rattle.cxx_ast.specs.Plain.{Checked};
ghost use Rattle.cxx_ast.specs.Checked.{IsChecked};
ghost use Rattle.meaning_forms.specs.Running.{Callee};
ghost use Rattle.region_forms.specs.Form.{Region};
ghost use Rattle.region_forms.specs.Layout.{Layout, layout_of};
ghost use Rattle.region_forms.specs.LowerProgram.{regions_of};
ghost use Rattle.region_forms.specs.Numbering.{number_of, type_rows};
ghost use Rattle.region_forms.specs.WellFormed.{every, rows_test, is_well_formed};
ghost use Rattle.region_ir.specs.AtNumber.{IsThere, called_function};
ghost use Rattle.region_ir.specs.Exits.{program_exits_inside, program_jumps_stand};
ghost use Rattle.region_ir.specs.Implicit.{DeclaredPass, ImplicitPass};
ghost use Rattle.region_ir.specs.Leaves.{main_test};
ghost use Rattle.region_ir.specs.Shape.{all_shaped};
ghost use Rattle.region_ir.specs.SlotsSuffice.{slots_suffice, HelpsBehind};
ghost use Rattle.region_ir.specs.Specials.{TakeObjects};

/// The regions of every program, valid or not: calls stand at the top of operations alone, a barrier holds one operation, bodies are regions
/// in order, and each exit leaves one region at least.
pub fn regions_have_shape()
    ensures shape { (p : Checked) (l : Layout) → all_shaped (regions_of p l) ≡ true }
{}

/// The row of a base stands before those of the classes that derive from it.
pub fn checked_bases_stand_before()
    ensures before { (p : Checked) → IsChecked p → rows_test 0 (type_rows p) ≡ true }
{}

/// Each `break` and `continue` of a checked program stands in a loop.
pub fn checked_jumps_stand()
    ensures stand { (p : Checked) → IsChecked p → program_jumps_stand p ≡ true }
{}

/// Each exit of a function leads to the end of a region that holds it, in the regions of a checked program.
pub fn checked_exits_lead_inside()
    ensures inside { (p : Checked) (l : Layout) → IsChecked p → program_exits_inside (regions_of p l) ≡ true }
{}

/// The slots of each function are as many as its body mentions, its parameters are among them, and its result, an exception object's address
/// and all that stands behind its variables is in none of a variable; so it is in every program, valid or not.
pub fn regions_have_slots()
    ensures suffice { (p : Checked) (l : Layout) → every slots_suffice (regions_of p l).functions ≡ true }
    ensures helps { (l : Layout) (is_member : Bool) (variables : List Ty) (body : Region) → HelpsBehind l is_member variables body }
{}

/// Main is a function of a checked program's regions, and has no parameters.
pub fn checked_main_is_there()
    ensures there { (p : Checked) (l : Layout) → IsChecked p → main_test (regions_of p l) ≡ true }
{}

/// The regions of a checked program, by its layout, are well-formed where the operations, values, cleanups and clauses of its declared functions pass their
/// tests: all else that is asked of regions holds.
pub fn checked_regions_are_joined()
    ensures joined { (p : Checked) → IsChecked p → DeclaredPass p (layout_of p) → is_well_formed (regions_of p (layout_of p)) ≡ true }
{}

/// Each function that is there and that can be called has its number among the functions of a program's regions, valid or not.
pub fn callees_have_numbers()
    ensures numbered { (p : Checked) (l : Layout) (c : Callee) → IsThere p c →
        slice_get (regions_of p l).functions (number_of p c) ≡ Some (called_function p l c) }
{}

/// The destructor, the copy constructor and the default constructor of each class of a checked program can be called for an object: they are
/// there, and have the parameters of such a call.
pub fn checked_classes_take_objects()
    ensures taken { (p : Checked) (l : Layout) → IsChecked p → (k : ℕ) → k < length p.classes → TakeObjects p l k }
{}

/// What the implicit functions of each class of a checked program do, by its layout, passes the tests of operations and cleanups.
pub fn checked_implicit_functions_pass()
    ensures pass { (p : Checked) → IsChecked p → (k : ℕ) → k < length p.classes → ImplicitPass p (layout_of p) k }
{}
