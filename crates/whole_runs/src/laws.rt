// Laws of whole runs: calls of no effect, whose contracts state what holds of every image.
ghost use Rattle.whole_runs.specs.Deepest.{DeepestGrows};
ghost use Rattle.whole_runs.specs.Enough.{RunsSuffice};
ghost use Rattle.whole_runs.specs.Runs.{RunsFollowSteps};

/// Behind steps of linear code no fewer calls were open at most than before.
pub fn deepest_grows()
    ensures { DeepestGrows }
{}

/// Where all steps of linear code are matched by turns of the ABI machine, a run of that machine follows a run of the code: it shows the same
/// items, or those of a front of it, and ends as it does, unless its turns are used up, or the stack where 4,096 calls are open.
pub fn runs_follow_steps()
    ensures { RunsFollowSteps }
{}

/// And where its turns are enough for the steps of linear code, it comes to where these come, or the stack is used up.
pub fn runs_suffice()
    ensures { RunsSuffice }
{}
