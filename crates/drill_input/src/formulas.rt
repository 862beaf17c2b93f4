ghost use Rattle.std.specs.Prelude.{◌≡◌, ◌≤◌, ◌<◌, ◌+◌, ◌^◌, ℕ, pos, IfOk};
ghost use Rattle.formula_text.specs.Formulas.{tree};
ghost use Rattle.formula_text.specs.Trees.{Tree, Number};
ghost use Rattle.formula_text.specs.declared.fault.FormulaFault.TheVariants as faults;
ghost use Rattle.formula_text.specs.Writing.{text_of, IsWithin};
ghost use Rattle.drill_input.specs.Drill.{later_tree, next_tree, last_tree};

use formula_text::{Formula, FormulaFault};
use std::alloc::{AllocError, Global};

// Want of memory, by the fault that says so.
fn want_of_memory(_fault: FormulaFault) -> AllocError
    requires { _fault ≡ faults.OutOfMemory }
{
    AllocError
}

// The formula that a text states. It is one of the texts below, so there is no other fault than want of memory.
fn formula_of(alloc: Global, text: &str) -> Result<Formula, AllocError>
    requires { (t : Tree) × IsWithin t × (text.now ≡ text_of t) }
    ensures { IfOk result (λ f. (t : Tree) → IsWithin t → text.now ≡ text_of t → tree f ≡ t) }
{
    match Formula::parse(alloc, text) {
        Ok(formula) => Ok(formula),
        Err(fault) => Err(want_of_memory(fault)),
    }
}

/// A number.
pub(crate) fn number_formula(alloc: Global, value: u64) -> Result<Formula, AllocError>
    requires { value < 2 ^ 63 }
    ensures { IfOk result (λ f. tree f ≡ Number (pos value)) }
{
    let text = format!(in alloc; "{value}")?;
    formula_of(alloc, text.as_str())
}

/// The formula of a later task.
pub(crate) fn later_formula(alloc: Global, d: u64, e: u64) -> Result<Formula, AllocError>
    requires near { d ≤ 64 }
    requires far { e ≤ 64 }
    ensures { IfOk result (λ f. tree f ≡ later_tree d e) }
{
    let text = format!(in alloc; "$0+$1-$2+1+{d}-{e}")?;
    formula_of(alloc, text.as_str())
}

/// One more than the only input.
pub(crate) fn next_formula(alloc: Global) -> Result<Formula, AllocError>
    ensures { IfOk result (λ f. tree f ≡ next_tree) }
{
    formula_of(alloc, "$0+1")
}

/// The sum of the two inputs.
pub(crate) fn last_formula(alloc: Global) -> Result<Formula, AllocError>
    ensures { IfOk result (λ f. tree f ≡ last_tree) }
{
    formula_of(alloc, "$0+$1")
}
