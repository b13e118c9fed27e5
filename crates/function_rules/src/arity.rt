//! How many arguments a function takes (PHP manual, "Function parameters and arguments").

ghost use Rattle.std.specs.Prelude.{◌≡◌, ◌&&◌, nat_le};
ghost use Rattle.php_syntax.specs.Trees.{maybe_of, params_of_list};
ghost use Rattle.program_rules.specs.Rules.{has_default};
ghost use Rattle.function_rules.specs.Arguments.{AreNumbersOf};

use php_syntax::tree::Param;

/// The least and the greatest number of arguments.
#[derive(Clone, Copy, Debug)]
pub struct Numbers {
    /// The least number.
    pub least: usize,
    /// The greatest number.
    pub most: usize,
}

impl Numbers {
    /// Whether so many arguments may be handed in.
    pub fn have(self, count: usize) -> bool
        ensures { result ≡ (nat_le self.least count && nat_le count self.most) }
    {
        self.least <= count && count <= self.most
    }
}

// Whether a parameter has a default.
fn has_default(param: &Param) -> bool
    ensures { result ≡ has_default (maybe_of param.now.default) }
{
    match &param.default {
        Some(_) => true,
        None => false,
    }
}

/// The numbers of arguments that these parameters take: the last ones may be left out as far as
/// they have defaults.
pub fn numbers_of(params: &[Param]) -> Numbers
    ensures { AreNumbersOf result (params_of_list params.now) }
{
    let most = params.len();
    let mut least = most;
    'defaults: while least > 0 {
        if !has_default(&params[least - 1]) {
            return Numbers { least, most };
        }
        least -= 1;
    }
    Numbers { least: 0, most }
}
