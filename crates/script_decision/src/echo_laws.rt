//! The law. The function does nothing, and stands for the law that its contract states.

ghost use Rattle.dtd_model.specs.TableOf.{table_of};
ghost use Rattle.script_decision.specs.EchoLaws.{IsMachineOf};
ghost use Rattle.way_reader.specs.PageWays.{ArePageWays};

use dtd_model::Dtd;
use way_reader::{PieceWays, WayReader, pages_are_read, whole_forms_have_texts};

/// By each definition the echoing machine of the reader by the ways of its pages is a machine that
/// reads pages.
pub fn is_page_machine(dtd: &Dtd, ways: &PieceWays)
    requires { ArePageWays (table_of dtd.now) ways.now }
    ensures { IsMachineOf (table_of dtd.now) ways.now }
{
    whole_forms_have_texts();
    pages_are_read();
    let reader = WayReader { ways };
    page_decision::echo_laws::echo_is_page_machine(dtd, &reader);
}
