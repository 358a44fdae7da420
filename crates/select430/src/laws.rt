ghost use Rattle.std.specs.Prelude.{◌≡◌, ℕ, List, Some, slice_get};
ghost use Rattle.asm430.specs.declared.item.Item.{Item};
ghost use Rattle.placed430.specs.Assembled.{IsAssembled};
ghost use Rattle.ir.specs.declared.form.Ir.{Ir};
ghost use Rattle.ir.specs.declared.form.IrFunction.{IrFunction};
ghost use Rattle.ir.specs.declared.form.Step.{Step};
ghost use Rattle.ir.specs.declared.form.StepKind.{StepKind};
ghost use Rattle.select430.specs.Laws.{LabelsDiffer, InnerLabelsDiffer, FitRow, HelpsAsTold, AreOwn};
ghost use Rattle.select430.specs.Laying.{all_items, LeavesLabels, Stands};

/// No two things have the same label, and none has one of those that a step uses inside, which are other ones for each step.
pub fn labels_differ()
    ensures things { LabelsDiffer }
    ensures inside { InnerLabelsDiffer }
{}

/// The items of a step take at most the bytes of its row, and call a helper routine where the row says so, and then once.
/// Their instructions are valid. Their jumps go ahead, to a label that stands once among them; no label stands among them
/// but those inside the step, and they use no others but those of helper routines and of what the step names.
pub fn items_keep_to_their_step()
    ensures bytes { (ir : Ir) → (function : IrFunction) → (g p : ℕ) → (kind : StepKind) → FitRow ir function g p kind }
    ensures helper { (ir : Ir) → (function : IrFunction) → (kind : StepKind) → HelpsAsTold ir function kind }
    ensures own { (ir : Ir) → (function : IrFunction) → (g p : ℕ) → (kind : StepKind) → AreOwn ir function g p kind }
{}

/// Where the items of all functions of a form are assembled among others that leave them their labels, the code of each step
/// stands where its label says, with the addresses of what it names in it, and the next step's code behind it.
pub fn steps_stand_at_their_labels()
    ensures { (ir : Ir) → (front back : List Item) → (top : ℕ) → LeavesLabels ir front back top → (words : List ℕ) → (m : ℕ → ℕ) → IsAssembled (all_items ir front back) words m → (g : ℕ) → (function : IrFunction) → (p : ℕ) → (step : Step) → slice_get ir.functions g ≡ Some function → slice_get function.steps p ≡ Some step → Stands ir (all_items ir front back) m g function p step }
{}
