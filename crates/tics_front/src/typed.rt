//! From the bytes of a source to its tree with types.

ghost use Rattle.std.specs.Prelude.{◌≡◌, ◌≤◌, length, true, false, Ok, Err, IfOk, IsErrOf};
ghost use Rattle.c_checking.specs.Annotations.{has_annotations};
ghost use Rattle.c_checking.specs.Checked.{checked};
ghost use Rattle.tics_front.specs.declared.fault.SourceFault.{SourceFault as ASourceFault};
ghost use Rattle.tics_front.specs.Source.{IsTyped, IsAnnotated, IsRefused, IsBrokenBy, most_bytes};

use crate::fault::SourceFault;
use crate::tree::{FrontErr, tree_of};
use c_calls::has_annotations;
use c_tree::Tree;
use c_types::check;
use c_typing::Stop;
use core_tree::Typed;
use sqlite_items::Boxed;
use std::alloc::Global;

/// A source that breaks no rule of the language, as it is written and with its types.
#[derive(Drop)]
pub struct Source {
    pub tree: Boxed<Tree>,
    pub typed: Boxed<Typed>,
}

/// The tree of a source with its types, or why it has none.
fn typed_of(alloc: Global, tree: &Tree) -> Result<Boxed<Typed>, FrontErr>
    ensures plain { IfOk result (λ typed. has_annotations tree.now ≡ false) }
    ensures ok { IfOk result (λ typed. checked tree.now ≡ Ok typed) }
    ensures refused { (fault : ASourceFault) → IsErrOf result (FrontErr.Refused fault) → IsBrokenBy tree.now fault }
    ensures annotated { IsErrOf result FrontErr.Annotated → has_annotations tree.now ≡ true }
{
    if has_annotations(tree) {
        return Err(FrontErr::Annotated);
    }
    match check(alloc, tree) {
        Ok(typed) => Ok(Boxed::new(alloc, typed)?),
        Err(Stop::Broken(fault)) => Err(FrontErr::Refused(SourceFault::Broken(fault))),
        Err(Stop::NoMemory) => Err(FrontErr::NoMemory),
    }
}

/// A source of at most 262,144 bytes with its types, or why it is refused.
pub fn source_of(alloc: Global, source: &[u8]) -> Result<Source, FrontErr>
    requires { length source.now ≤ most_bytes }
    ensures ok { IfOk result (λ made. IsTyped source.now made.tree made.typed) }
    ensures refused { (fault : ASourceFault) → IsErrOf result (FrontErr.Refused fault) → IsRefused source.now fault }
    ensures annotated { IsErrOf result FrontErr.Annotated → IsAnnotated source.now }
{
    let tree = match tree_of(alloc, source) {
        Ok(tree) => tree,
        Err(error) => return Err(error),
    };
    match typed_of(alloc, tree.get()) {
        Ok(typed) => Ok(Source { tree, typed }),
        Err(error) => Err(error),
    }
}
