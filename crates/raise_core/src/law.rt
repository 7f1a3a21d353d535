// What the definitions say of one another.
ghost use Rattle.std.specs.Prelude.{◌≡◌, ◌≤◌, ℕ, List, None};
ghost use Rattle.table_forms.specs.Fde.{Fde};
ghost use Rattle.table_forms.specs.Verdict as thrown;
ghost use Rattle.rv64_isa.specs.State.{State};
ghost use Rattle.rv64_isa.specs.declared.step.FaultKind.{FaultKind};
ghost use Rattle.raise_core.specs.declared.raised.Raised.TheVariants.{Fault};
ghost use Rattle.raise_core.specs.declared.goal.Goal.TheVariants.{Target, Cleanup};
ghost use Rattle.raise_core.specs.Stack.{broken, first_frame, frames, frames_within, most_frames};
ghost use Rattle.raise_core.specs.First.{first_of};
ghost use Rattle.raise_core.specs.Raise.{raise, forced_unwind};

/// The frames of a stack are all its frames: a walk that may go farther comes to the same end,
/// since canonical frame addresses rise inside the stack.
pub fn more_frames_make_no_difference()
    ensures { (n : ℕ) (s : State) (fdes : List Fde) → most_frames ≤ n → frames_within n s fdes (first_frame s) ≡ frames s fdes }
{}

/// A raise and a forced unwind fault only where no frame stops them and the stack can't be walked
/// to its end.
pub fn a_fault_is_a_broken_stack()
    ensures raised { (s : State) (fdes : List Fde) (what : thrown.Thrown) (kind : FaultKind) → (raise fdes what s).0 ≡ Fault kind →
        (first_of s fdes what Target ≡ None) × ((frames s fdes).ending ≡ broken kind) }
    ensures forced { (s : State) (fdes : List Fde) (kind : FaultKind) → (forced_unwind fdes s).0 ≡ Fault kind →
        (first_of s fdes thrown.forced Cleanup ≡ None) × ((frames s fdes).ending ≡ broken kind) }
{}
