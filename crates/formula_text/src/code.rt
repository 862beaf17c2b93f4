//! A tree as bytes, each operator before its operands.

ghost use Rattle.std.specs.Prelude.{◌≡◌, ◌∷◌, List, pos, IfOk, OnOk};
ghost use Rattle.formula_text.specs.Trees.{Tree, Number, tree_of};
ghost use Rattle.formula_text.specs.Writing.{IsWritable};
ghost use Rattle.formula_text.specs.Codes.{op_byte, head_of, trees_before, tree_in};

use crate::node::{Node, Op};
use std::alloc::{AllocError, Global};

/// What one byte says.
#[derive(Clone, Copy)]
pub enum Head {
    /// The operands stand behind it.
    Two(Op),
    /// The operand stands behind it.
    Minus,
    Input(u32),
    /// A number below 80.
    Number(u8),
    /// A number's last digit to base 128. The number without it stands behind it.
    Digit(u8),
}

impl Head {
    pub fn of(byte: u8) -> Head
        ensures { result ≡ head_of byte }
    {
        match byte {
            0 => Head::Two(Op::Plus),
            1 => Head::Two(Op::Less),
            2 => Head::Two(Op::Times),
            3 => Head::Two(Op::Over),
            4 => Head::Two(Op::Rest),
            5 => Head::Two(Op::Min),
            6 => Head::Two(Op::Max),
            7 => Head::Minus,
            8..=47 => Head::Input(u32::from(byte - 8)),
            48..=127 => Head::Number(byte - 48),
            _ => Head::Digit(byte - 128),
        }
    }
}

fn op_byte(op: Op) -> u8
    ensures { result ≡ op_byte op }
{
    match op {
        Op::Plus => 0,
        Op::Less => 1,
        Op::Times => 2,
        Op::Over => 3,
        Op::Rest => 4,
        Op::Min => 5,
        Op::Max => 6,
    }
}

fn put_number(out: &mut Vec<u8>, n: u64) -> Result<(), AllocError>
    ensures { OnOk result ((s : List Tree) → trees_before out.new.items s ≡ trees_before out.old.items (Number (pos n) ∷ s)) }
{
    if n < 80 {
        out.push(48 + n as u8)?;
        return Ok(());
    }
    out.push(128 + (n % 128) as u8)?;
    put_number(out, n / 128)
}

// Puts a tree's bytes behind others.
fn put(out: &mut Vec<u8>, node: &Node) -> Result<(), AllocError>
    requires { IsWritable (tree_of node.now) }
    ensures { OnOk result ((s : List Tree) → trees_before out.new.items s ≡ trees_before out.old.items (tree_of node.now ∷ s)) }
{
    match node {
        Node::Number(n) => put_number(out, n.unsigned_abs()),
        Node::Input(i) => {
            out.push(8 + *i as u8)?;
            Ok(())
        }
        Node::Minus(a) => {
            out.push(7)?;
            put(out, a)
        }
        Node::Two(op, a, b) => {
            out.push(op_byte(*op))?;
            put(out, a)?;
            put(out, b)
        }
    }
}

/// A tree's bytes, with no room behind them. Room for so many is taken first.
pub fn code_of(alloc: Global, node: &Node, room: usize) -> Result<Vec<u8>, AllocError>
    requires { IsWritable (tree_of node.now) }
    ensures { IfOk result (λ code. tree_in code.items ≡ tree_of node.now) }
{
    let mut code = Vec::with_capacity(alloc, room)?;
    put(&mut code, node)?;
    code.shrink_to_fit();
    Ok(code)
}
