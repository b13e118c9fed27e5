//! The move from the end of a call to its caller.

ghost use Rattle.std.specs.Prelude.{◌≡◌};
ghost use Rattle.php_values.specs.View.{plain_of};
ghost use Rattle.script_meaning.specs.Meaning as meaning;
ghost use Rattle.script_runs.specs.Frames.{plain_flow};

use crate::Flow;
use php_values::Value;

// The value of a call whose body was left so: null where it was left at its end.
#[tactic(auto, unfolding(script_meaning::specs::Meaning::value_returned))]
pub(crate) fn value_returned(flow: Flow) -> Value
    ensures { plain_of result ≡ meaning.value_returned (plain_flow flow) }
{
    match flow {
        Flow::Returns(value) => value,
        Flow::GoesOn | Flow::Breaks | Flow::Continues => Value::Null,
    }
}
