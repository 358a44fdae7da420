//! What the grammar of a whole source says.

ghost use Rattle.std.specs.Prelude.{◌≡◌, ◌≤◌, ℕ, suc, Some};
ghost use Rattle.c_tree.specs.declared.unit.Tree.{Tree as ATree};
ghost use Rattle.c_tree.specs.Measure.{height};
ghost use Rattle.c_parse_expr.specs.TypeWords.{Tokens};
ghost use Rattle.c_parse.specs.Externals.{SpellsTree};
ghost use Rattle.c_parse.specs.ExternalReading.{source};

/// A list of tokens is spelled by one tree at most, whatever its height (C99 6.9). The reader of the definitions, which goes
/// through the list once from its front, finds that tree if it is no higher than the reader allows, and finds no other.
pub fn one_tree_for_each_list()
    ensures one { (x y : ATree) (ts : Tokens) → SpellsTree x ts → SpellsTree y ts → x ≡ y }
    // A reader that allows for d below its top reads each tree of height d + 1 at most.
    ensures read { (d : ℕ) (x : ATree) (ts : Tokens) → SpellsTree x ts → height x ≤ suc d → source d ts ≡ Some x }
    // What is read is spelled, and no higher than allowed.
    ensures spelled { (d : ℕ) (x : ATree) (ts : Tokens) → source d ts ≡ Some x → SpellsTree x ts }
    ensures low { (d : ℕ) (x : ATree) (ts : Tokens) → source d ts ≡ Some x → height x ≤ suc d }
{}
