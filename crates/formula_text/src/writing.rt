//! A formula as text.

ghost use Rattle.std.specs.Prelude.{◌≡◌, ◌++◌, ◌≤◌, length, IfOk, OnOk};
ghost use Rattle.formula_text.specs.Codes.{tree_in, trees, below};
ghost use Rattle.formula_text.specs.Writing.{line_of, line_of_op, left_of, right_of, around, text_of, wants_brackets, before, sign, behind, IsWritable};

use crate::code::Head;
use crate::evaluation::value;
use crate::node::Op;
use graph_model::Text;
use std::alloc::{AllocError, Global};
use text_lines::put_number;

/// A line of the grammar.
#[derive(Clone, Copy)]
pub enum Line {
    Expression,
    Term,
    Factor,
}

fn line_of_op(op: Op) -> Line
    ensures { result ≡ line_of_op op }
{
    match op {
        Op::Plus => Line::Expression,
        Op::Less => Line::Expression,
        Op::Times => Line::Term,
        Op::Over => Line::Term,
        Op::Rest => Line::Term,
        Op::Min => Line::Factor,
        Op::Max => Line::Factor,
    }
}

fn left_of(op: Op) -> Line
    ensures { result ≡ left_of op }
{
    match op {
        Op::Times => Line::Term,
        Op::Over => Line::Term,
        Op::Rest => Line::Term,
        Op::Plus => Line::Expression,
        Op::Less => Line::Expression,
        Op::Min => Line::Expression,
        Op::Max => Line::Expression,
    }
}

fn right_of(op: Op) -> Line
    ensures { result ≡ right_of op }
{
    match op {
        Op::Plus => Line::Term,
        Op::Less => Line::Term,
        Op::Times => Line::Factor,
        Op::Over => Line::Factor,
        Op::Rest => Line::Factor,
        Op::Min => Line::Expression,
        Op::Max => Line::Expression,
    }
}

// Whether a text of the line wants brackets where another is wanted.
fn wants_brackets(wanted: Line, line: Line) -> bool
    ensures { result ≡ wants_brackets wanted line }
{
    match (wanted, line) {
        (Line::Term, Line::Expression) => true,
        (Line::Factor, Line::Expression) => true,
        (Line::Factor, Line::Term) => true,
        _ => false,
    }
}

// What stands before the left operand.
fn before(wanted: Line, op: Op) -> &'static [u8]
    ensures { result.now ≡ before wanted op }
{
    match op {
        Op::Min => b"min(",
        Op::Max => b"max(",
        _ => {
            if wants_brackets(wanted, line_of_op(op)) {
                b"("
            } else {
                b""
            }
        }
    }
}

// What stands between the operands.
fn sign(op: Op) -> u8
    ensures { result ≡ sign op }
{
    match op {
        Op::Plus => b'+',
        Op::Less => b'-',
        Op::Times => b'*',
        Op::Over => b'/',
        Op::Rest => b'%',
        Op::Min => b',',
        Op::Max => b',',
    }
}

// What stands behind the right operand.
fn behind(wanted: Line, op: Op) -> &'static [u8]
    ensures { result.now ≡ behind wanted op }
{
    match op {
        Op::Min => b")",
        Op::Max => b")",
        _ => {
            if wants_brackets(wanted, line_of_op(op)) {
                b")"
            } else {
                b""
            }
        }
    }
}

// The first tree of a code where a line of the grammar is wanted. What stands behind that tree comes back.
fn push<'a>(out: &mut Vec<u8>, code: &'a [u8], wanted: Line) -> Result<&'a [u8], AllocError>
    requires { IsWritable (tree_in code.now) }
    ensures text { OnOk result (out.new.items ≡ out.old.items ++ around wanted (line_of (tree_in code.now)) (text_of (tree_in code.now))) }
    ensures rest { IfOk result (λ rest. trees rest.now ≡ below (trees code.now)) }
    ensures shorter { IfOk result (λ rest. length rest.now ≤ length code.now) }
{
    let [first, rest @ ..] = code else {
        put_number(out, 0)?;
        return Ok(code);
    };
    match Head::of(*first) {
        Head::Two(op) => {
            out.extend_from_slice(before(wanted, op))?;
            let rest = push(out, rest, left_of(op))?;
            out.push(sign(op))?;
            let rest = push(out, rest, right_of(op))?;
            out.extend_from_slice(behind(wanted, op))?;
            Ok(rest)
        }
        Head::Minus => {
            out.push(b'-')?;
            push(out, rest, Line::Factor)
        }
        Head::Input(i) => {
            out.push(b'$')?;
            put_number(out, u64::from(i))?;
            Ok(rest)
        }
        Head::Number(n) => {
            put_number(out, u64::from(n))?;
            Ok(rest)
        }
        Head::Digit(_) => {
            let (n, rest) = value(code, &[]);
            put_number(out, n.unsigned_abs())?;
            Ok(rest)
        }
    }
}

/// The text of a code's first tree.
pub fn text(alloc: Global, code: &[u8]) -> Result<Text, AllocError>
    requires { IsWritable (tree_in code.now) }
    ensures { IfOk result (λ text. text ≡ text_of (tree_in code.now)) }
{
    let mut out = Vec::new(alloc);
    push(&mut out, code, Line::Expression)?;
    Ok(Text::from_vec(out))
}
