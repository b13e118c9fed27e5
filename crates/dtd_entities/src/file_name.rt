//! Names of files.

ghost use Rattle.std.specs.Prelude.{◌≡◌, IfOk};
ghost use Rattle.std.specs.String.{string_bytes};

use std::alloc::Global;
use std::marker::Model;
use std::rc::Rc;
use text_base::NoMemory;

/// The name of a file. Contracts see it as the list of its bytes; a copy costs a count.
#[derive(Debug, Drop)]
pub struct FileName {
    name: Rc<String>,
}

impl Model for FileName {
    ghost use Rattle.std.specs.Prelude.{ℕ, List};
    ghost use Rattle.std.specs.String.{string_bytes};

    ghost Value = { List ℕ };

    ghost view = { λ f. string_bytes f.name.value };
}

impl FileName {
    /// This name.
    pub fn new(alloc: Global, name: String) -> Result<FileName, NoMemory>
        ensures { IfOk result (λ f. f ≡ string_bytes name) }
    {
        let name = Rc::new(alloc, name)?;
        Ok(FileName { name })
    }

    /// The name as text.
    pub fn as_str(&self) -> &str
        ensures { result.now ≡ self.now }
    {
        self.name.as_ref().as_str()
    }

    /// The same name.
    pub fn copy(&self) -> Result<FileName, NoMemory>
        ensures { IfOk result (λ f. f ≡ self.now) }
    {
        let name = self.name.clone()?;
        Ok(FileName { name })
    }
}
