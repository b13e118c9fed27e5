//! The text literals among expressions.

ghost use Rattle.std.specs.Prelude.{◌≡◌, ◌&&◌, Bool};
ghost use Rattle.php_syntax.specs.Trees.{plain_expr};
ghost use Rattle.flow_runs.specs.Texts.{own_text};
ghost use Rattle.program_lowering.specs.Short.{is_short, all_short};

use php_syntax::tree::Expr;
use std::convert::Infallible;
use text_base::Bytes;
use text_base::limits::TEXT_LIMIT;
use tree_walks::Visitor;

// A text.
fn short_text(text: &Bytes) -> bool
    ensures { result ≡ is_short text.now }
{
    text.as_slice().len() <= TEXT_LIMIT
}

/// Whether the text literals so far are short.
#[derive(Drop)]
pub(crate) struct Texts {
    pub(crate) short: bool,
}

impl Visitor for Texts {
    type Stop = Infallible;

    ghost State = { Bool };

    ghost state = { λ texts. texts.short };

    ghost next = { λ short e. short && all_short (own_text e) };

    #[tactic(auto, using(php_syntax::proofs::Views::views, crate::proofs::ShortLemmas::shorts), unfolding(flow_runs::specs::Texts::own_text))]
    fn visit(&mut self, expr: &Expr) -> Result<(), Infallible> {
        match expr {
            Expr::Text(text) => {
                self.short = self.short && short_text(text);
                Ok(())
            }
            _ => Ok(()),
        }
    }

    fn visit_variable(&mut self, _name: &Bytes) -> Result<(), Infallible> {
        Ok(())
    }
}
