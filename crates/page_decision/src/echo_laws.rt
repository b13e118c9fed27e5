//! The law.

ghost use Rattle.dtd_model.specs.TableOf.{table_of};
ghost use Rattle.echoing_machine.specs.Echoes.{EchoEnd, EchoStep};
ghost use Rattle.page_decision.specs.Machines.{IsPageMachine};
ghost use Rattle.page_decision.specs.Readers.{ReadsPages};

use byte_readers::ByteReader;
use dtd_model::Dtd;
use echoing_machine::machine_echoes;

/// The echoing machine of a reader that gives the tokens of each page of bytes is a machine that
/// reads pages.
pub fn echo_is_page_machine<R: ByteReader>(dtd: &Dtd, reader: &R)
    requires { ReadsPages (table_of dtd.now) (R.next reader.now) (R.puts reader.now)
        (R.lasts reader.now) (R.first reader.now) }
    ensures { IsPageMachine (table_of dtd.now) (R.first reader.now)
        (EchoStep (R.next reader.now) (R.puts reader.now) (R.lasts reader.now))
        (EchoEnd (R.next reader.now) (R.puts reader.now) (R.lasts reader.now)) }
{
    let _ = dtd;
    machine_echoes(reader);
}
