//! Laws over the definitions of specs/: words ask for one task, an ending says how a call is
//! answered, and what its status and what stands on the output say, and what `run` prints where
//! `check` has said yes. Each function stands for the law that its contract states.

ghost use Rattle.std.specs.Prelude.{◌≡◌, ℕ, List};
ghost use Rattle.phpsa_texts.specs.declared.exit.Exit.{Exit};
ghost use Rattle.phpsa_tasks.specs.Tasks.{Task, AsksFor};
ghost use Rattle.phpsa_tasks.specs.Call.{Call};
ghost use Rattle.phpsa_tasks.specs.Endings.{Ends};
ghost use Rattle.phpsa_tasks.specs.Answered.{IsAnswered};
ghost use Rattle.phpsa_tasks.specs.Sound.{IsSound};
ghost use Rattle.phpsa_tasks.specs.Written.{IsWritten};
ghost use Rattle.phpsa_tasks.specs.Joined.{CheckedRunsPrintGoodPages};

use command_words::laws::words_ask_once;
use program_loader::{held_programs_are_loaded, loaded_programs_stay, one_program_is_loaded};

/// Words ask for one thing to be done.
pub fn words_ask_for_one_task()
    ensures { (words : List (List ℕ)) (task other : Task) → AsksFor words task → AsksFor words other
        → task ≡ other }
{
    words_ask_once();
}

/// How a call ends says how it is answered.
pub fn endings_are_answered()
    ensures { (call : Call) (status : Exit) → Ends call status → IsAnswered call status }
{
    words_ask_once();
    words_ask_for_one_task();
    one_program_is_loaded();
    loaded_programs_stay();
    held_programs_are_loaded();
}

/// A call that ends with status 0 says what the headline says.
pub fn endings_are_sound()
    ensures { (call : Call) (status : Exit) → Ends call status → IsSound call status }
{
    words_ask_for_one_task();
    one_program_is_loaded();
    loaded_programs_stay();
}

/// A call whose task is done has written what the meaning of the task says.
pub fn endings_are_written()
    ensures { (call : Call) (status : Exit) → Ends call status → IsWritten call status }
{
    words_ask_for_one_task();
    one_program_is_loaded();
}

/// What `run` prints with status 0 is what the program means for the request, and a good page,
/// where `check` has ended with status 0 for the same program.
pub fn checked_runs_print_good_pages()
    ensures { CheckedRunsPrintGoodPages }
{
    words_ask_for_one_task();
}
