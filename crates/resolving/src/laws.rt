//! The laws. The functions do nothing, and stand for the laws that their contracts state.

ghost use Rattle.resolving.specs.Laws.{SystemIsDraft, AnyIsDone, ImageIsDone, OperandIsExact, StartIsExact};

use op_system::OpSystem;

/// The productions of the system alone are a draft.
pub fn system_is_draft(s: &OpSystem)
    ensures { SystemIsDraft s.now }
{}

/// An operation in a cycle is done by all texts over its bytes.
pub fn any_is_done(s: &OpSystem)
    ensures { AnyIsDone s.now }
{}

/// An operation in no cycle is done by the image of its operand, where all that its operand depends
/// on is done.
pub fn image_is_done(s: &OpSystem)
    ensures { ImageIsDone s.now }
{}

/// Then the draft derives exactly the texts of the operand.
pub fn operand_is_exact(s: &OpSystem)
    ensures { OperandIsExact s.now }
{}

/// Where all rules are done, the draft derives exactly the texts of each set.
pub fn all_is_exact(s: &OpSystem)
    ensures { StartIsExact s.now }
{}
