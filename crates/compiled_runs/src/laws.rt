// Laws of compiled programs: calls of no effect, whose contracts state what holds of every program.
ghost use Rattle.compiled_runs.specs.Compiled.{FollowedImagesAreCompiled};
ghost use Rattle.compiled_runs.specs.Enough.{ImagesHaveEnough, SufficientImagesHaveEnough};
ghost use Rattle.compiled_runs.specs.Starts.{ImagesAreCompiled, ImagesStart};

use checked_units::laws::images_begin;
use cost_turns::laws::all_are_counted;
use cost_words::laws::checked_runs_spend_little;
use linear_meaning::laws::checked_programs_run_as_meant;
use machine_simulation::laws::main_begins;
use meaning_depths::laws::shallow_meanings;

/// Where each run of an image follows the run of a checked program's linear code, the image is the compiled program.
pub fn followed_images_are_compiled()
    ensures { FollowedImagesAreCompiled }
{
    checked_programs_run_as_meant();
    shallow_meanings();
}

/// Every run of the image of a checked program comes to where main begins, in at least one turn and at most 38, with the same input and replies.
pub fn images_start()
    ensures { ImagesStart }
{
    images_begin();
    main_begins();
}

/// Where steps go on from there as turns, the image is the compiled program.
pub fn images_are_compiled()
    ensures { ImagesAreCompiled }
{
    followed_images_are_compiled();
    images_start();
}

/// Where each run of an image follows the run of a checked program's linear code, and its turns suffice for it, a run with enough instructions comes to the end of
/// what the program means, or shows all that it shows with fewer turns.
pub fn sufficient_images_have_enough()
    ensures { SufficientImagesHaveEnough }
{
    checked_programs_run_as_meant();
    shallow_meanings();
    checked_runs_spend_little();
    all_are_counted();
}

/// So it is where steps go on from the beginning of main as turns.
pub fn images_have_enough()
    ensures { ImagesHaveEnough }
{
    sufficient_images_have_enough();
    followed_images_are_compiled();
    images_start();
}
