//! Laws of linear code: calls of no effect, whose contracts state what holds of the code of all regions.
ghost use Rattle.landing_pads.specs.Frames.{AllCheckedFramesFit, AllFramesFit, AllSourceFramesFit};
ghost use Rattle.landing_pads.specs.Laws.{AllTablesAreShort, AllTablesStand};

/// The call sites of a function stand in order and inside its operations, and what its tables name is there.
pub fn tables_stand()
    ensures { AllTablesStand }
{}

/// The chains of a function have one filter for all cleanups, and its tables name a type or a list once.
pub fn tables_are_short()
    ensures { AllTablesAreShort }
{}

/// The frame of a function has room for its slots and no more than that needs.
pub fn frames_fit()
    ensures { AllFramesFit }
{}

/// A function of a source keeps few values between its calls, so its frame has at most 64 bytes beside what the limit on variables counts.
pub fn frames_of_sources_fit()
    ensures { AllSourceFramesFit }
{}

/// The frames of a checked program have at most 1,600 bytes: by its layout the variables of a function have no more than the limit allows.
pub fn frames_of_checked_fit()
    ensures { AllCheckedFramesFit }
{}
