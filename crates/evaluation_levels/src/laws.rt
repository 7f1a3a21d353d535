// How deep the evaluation of a checked program goes: a call of no effect, whose contract states it.
ghost use Rattle.evaluation_levels.specs.Shallow.{CheckedProgramsAreShallow};

use class_layout::laws::checked_classes_fit;
use landing_pads::laws::frames_of_checked_fit;

/// Every checked program is one that `mean` begins: by its depth, the bytes of its variables and of its classes no call of it goes deeper than 600
/// levels.
pub fn checked_programs_are_shallow()
    ensures { CheckedProgramsAreShallow }
{
    checked_classes_fit();
    frames_of_checked_fit();
}
