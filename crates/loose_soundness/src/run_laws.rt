//! The law.

ghost use Rattle.loose_soundness.specs.Laws.{EndedRunsPrintLoosePages};

/// What an ended run of a lawful program prints is a loose page of it, for every admitted request
/// and every number of units, where the text literals of the program are of at most 16,777,216
/// bytes.
pub fn ended_runs_print_loose_pages()
    ensures { EndedRunsPrintLoosePages }
{
    flow_runs::lawful_points_are_of_their_form();
    flow_runs::lawful_runs_are_runs_of_points();
    crate::laws::ended_runs_print_loose_pages();
}
