//! Formulas.

ghost use Rattle.std.specs.Prelude.{◌≡◌, ℕ, ◌≤◌, ◌<◌, length, IfSome, IfNone, MatchOption, IfOk, Ok, MatchResult, IsAscii};
ghost use Rattle.formula_text.specs.Trees.{Tree, value_of, Uses, HasInputs};
ghost use Rattle.formula_text.specs.Codes.{tree_in};
ghost use Rattle.formula_text.specs.Grammar.{IsFormula};
ghost use Rattle.formula_text.specs.Writing.{text_of, IsWithin, IsWithin-prop};
ghost use Rattle.formula_text.specs.Machine.{reading};
ghost use Rattle.formula_text.specs.declared.fault.FormulaFault.TheVariants as faults;

use crate::fault::FormulaFault;
use crate::{code, evaluation, reading, writing};
use graph_model::Text;
use std::alloc::{AllocError, Global};

/// A formula over the inputs of a task, whose text is within the limits.
#[derive(Drop)]
pub struct Formula {
    // The tree, each operator before its operands.
    code: Vec<u8>,
    pub ghost within: { IsWithin (tree_in code.items) } by { IsWithin-prop (tree_in code.items) },
}

impl Formula {
    ghost use Rattle.formula_text.specs.Formulas.{tree};
    ghost use Rattle.formula_text.specs.Steps.{Fails};

    /// Reads a text. Spaces and redundant brackets leave no trace.
    pub fn parse(alloc: Global, text: &str) -> Result<Formula, FormulaFault>
        // What is read is in the grammar, within the limits.
        ensures found { IfOk result (λ f. IsFormula text.now (tree f)) }
        // What is in the grammar is read, with its one tree.
        ensures only { (t : Tree) → IsFormula text.now t → MatchResult result (λ f. tree f ≡ t) (λ e. e ≡ faults.OutOfMemory) }
        // The fault is the first from the left.
        ensures fault { MatchResult result (λ f. reading text.now ≡ Ok (tree f)) (λ e. Fails e (reading text.now)) }
    {
        let node = reading::read(alloc, text.as_bytes())?;
        Ok(Formula {
            code: code::code_of(alloc, &node, text.len())?,
        })
    }

    /// The value where input i is `inputs[i]`.
    pub fn eval(&self, inputs: &[i64]) -> i64
        requires { HasInputs (tree self.now) (length inputs.now) }
        ensures { result ≡ value_of (tree self.now) inputs.now }
    {
        evaluation::value(self.code.as_slice(), inputs).0
    }

    /// The greatest input that is used.
    pub fn greatest_input(&self) -> Option<u32>
        ensures used { IfSome result (λ g. Uses (tree self.now) g) }
        ensures most { IfSome result (λ g. (k : ℕ) → Uses (tree self.now) k → k ≤ g) }
        ensures none { IfNone result ((k : ℕ) → Uses (tree self.now) k → ⊥) }
        // How many inputs `eval` wants.
        ensures enough { MatchOption result ((n : ℕ) → HasInputs (tree self.now) n) (λ g. (n : ℕ) → g < n → HasInputs (tree self.now) n) }
    {
        evaluation::greatest(self.code.as_slice()).0
    }

    /// The least input that is used, of those from a number on.
    pub fn least_input_from(&self, from: usize) -> Option<u32>
        ensures used { IfSome result (λ i. Uses (tree self.now) i) }
        ensures late { IfSome result (λ i. from ≤ i) }
        ensures least { IfSome result (λ i. (k : ℕ) → Uses (tree self.now) k → from ≤ k → i ≤ k) }
        ensures none { IfNone result (HasInputs (tree self.now) from) }
    {
        evaluation::least_from(self.code.as_slice(), from).0
    }

    /// The text without spaces, with brackets only where they are needed.
    pub fn write(&self, alloc: Global) -> Result<Text, AllocError>
        ensures text { IfOk result (λ text. text ≡ text_of (tree self.now)) }
        // It reads back as the same formula.
        ensures back { IfOk result (λ text. IsFormula text (tree self.now)) }
        ensures again { IfOk result (λ text. reading text ≡ Ok (tree self.now)) }
        ensures ascii { IfOk result (λ text. IsAscii text) }
    {
        writing::text(alloc, self.code.as_slice())
    }
}
