// The operators of arithmetic.
ghost use Rattle.std.specs.Prelude.{◌≡◌, IfOk, Ok, Err};
ghost use Rattle.tx_base.specs.declared.class.Class.{Class};
ghost use Rattle.tx_ops.specs.Binary.{binary_of, difference, divided, product, quotient, remainder, sum};
ghost use Rattle.tx_ops.specs.Calls.Sequences.{not_divided};
ghost use Rattle.tx_values.specs.Operand.{operand};
ghost use Rattle.tx_ops.specs.Overflow.{int_or_overflow};
ghost use Rattle.tx_ops.specs.Unary.{unary_of};

use crate::operand::{number_in, numbers_in};
use crate::sequence::{joined, repeated_by};
use std::alloc::Global;
use tx_base::Class;
use tx_num::{Division, add, floor_div, floor_mod, mul, neg, sub};
use tx_tree::{BinaryOp, UnaryOp};
use tx_values::{OpError, Value};

/// `a op b` for the operators of arithmetic (Language Reference, "Binary arithmetic operations"): `7 // -2` is -4, `"ab" * 2`
/// is `"abab"`, and `[1] + (1,)` is a TypeError. What is made takes its room once, and nothing is built that is past the
/// limits of a value.
pub fn binary(alloc: Global, op: BinaryOp, a: &Value, b: &Value) -> Result<Value, OpError>
    ensures value { IfOk result (λ v. binary_of op a.now b.now ≡ Ok v) }
    ensures raise { (c : Class) → result ≡ Err (OpError.Raise c) → binary_of op a.now b.now ≡ Err c }
{
    match op {
        BinaryOp::Add => sum(alloc, a, b),
        BinaryOp::Sub => difference(a, b),
        BinaryOp::Mul => product(alloc, a, b),
        BinaryOp::FloorDiv => quotient(a, b),
        BinaryOp::Mod => remainder(a, b),
    }
}

/// `-a` and `+a` (Language Reference, "Unary arithmetic and bitwise operations"): `-True` is -1. It takes no memory.
pub fn unary(op: UnaryOp, a: &Value) -> Result<Value, OpError>
    ensures value { IfOk result (λ v. unary_of op a.now ≡ Ok v) }
    ensures raise { (c : Class) → result ≡ Err (OpError.Raise c) → unary_of op a.now ≡ Err c }
    ensures memory { result ≡ Err OpError.NoMemory → ⊥ }
{
    match number_in(a) {
        None => Err(OpError::Raise(Class::TypeError)),
        Some(n) => match op {
            UnaryOp::Minus => int_or_overflow(neg(n)),
            UnaryOp::Plus => Ok(Value::Int(n)),
        },
    }
}

// The integer, or OverflowError where it has no room.
fn int_or_overflow(n: Option<i128>) -> Result<Value, OpError>
    ensures value { IfOk result (λ v. int_or_overflow n ≡ Ok v) }
    ensures raise { (c : Class) → result ≡ Err (OpError.Raise c) → int_or_overflow n ≡ Err c }
    ensures memory { result ≡ Err OpError.NoMemory → ⊥ }
{
    match n {
        Some(n) => Ok(Value::Int(n)),
        None => Err(OpError::Raise(Class::OverflowError)),
    }
}

// What a division gives, as a value or a class.
fn divided(division: Division) -> Result<Value, OpError>
    ensures value { IfOk result (λ v. divided division ≡ Ok v) }
    ensures raise { (c : Class) → result ≡ Err (OpError.Raise c) → divided division ≡ Err c }
{
    match division {
        Division::Value(n) => Ok(Value::Int(n)),
        Division::Zero => Err(OpError::Raise(Class::ZeroDivisionError)),
        Division::Past => Err(OpError::Raise(Class::OverflowError)),
    }
}

fn sum(alloc: Global, a: &Value, b: &Value) -> Result<Value, OpError>
    ensures value { IfOk result (λ v. sum (operand a.now) (operand b.now) ≡ Ok v) }
    ensures raise { (c : Class) → result ≡ Err (OpError.Raise c) → sum (operand a.now) (operand b.now) ≡ Err c }
{
    match numbers_in(a, b) {
        Some((m, n)) => int_or_overflow(add(m, n)),
        None => joined(alloc, a, b),
    }
}

fn difference(a: &Value, b: &Value) -> Result<Value, OpError>
    ensures value { IfOk result (λ v. difference (operand a.now) (operand b.now) ≡ Ok v) }
    ensures raise { (c : Class) → result ≡ Err (OpError.Raise c) → difference (operand a.now) (operand b.now) ≡ Err c }
{
    match numbers_in(a, b) {
        Some((m, n)) => int_or_overflow(sub(m, n)),
        None => Err(OpError::Raise(Class::TypeError)),
    }
}

fn product(alloc: Global, a: &Value, b: &Value) -> Result<Value, OpError>
    ensures value { IfOk result (λ v. product (operand a.now) (operand b.now) ≡ Ok v) }
    ensures raise { (c : Class) → result ≡ Err (OpError.Raise c) → product (operand a.now) (operand b.now) ≡ Err c }
{
    match (number_in(a), number_in(b)) {
        (Some(m), Some(n)) => int_or_overflow(mul(m, n)),
        (None, Some(n)) => repeated_by(alloc, a, n),
        (Some(m), None) => repeated_by(alloc, b, m),
        (None, None) => Err(OpError::Raise(Class::TypeError)),
    }
}

fn quotient(a: &Value, b: &Value) -> Result<Value, OpError>
    ensures value { IfOk result (λ v. quotient (operand a.now) (operand b.now) ≡ Ok v) }
    ensures raise { (c : Class) → result ≡ Err (OpError.Raise c) → quotient (operand a.now) (operand b.now) ≡ Err c }
{
    match numbers_in(a, b) {
        Some((m, n)) => divided(floor_div(m, n)),
        None => Err(OpError::Raise(Class::TypeError)),
    }
}

fn remainder(a: &Value, b: &Value) -> Result<Value, OpError>
    ensures value { IfOk result (λ v. remainder (operand a.now) (operand b.now) ≡ Ok v) }
    ensures raise { (c : Class) → result ≡ Err (OpError.Raise c) → remainder (operand a.now) (operand b.now) ≡ Err c }
{
    match numbers_in(a, b) {
        Some((m, n)) => divided(floor_mod(m, n)),
        None => not_divided(a),
    }
}

// The class of a remainder where not both operands are numbers: Python formats a text on the left.
fn not_divided(a: &Value) -> Result<Value, OpError>
    ensures value { IfOk result (λ v. not_divided (operand a.now) ≡ Ok v) }
    ensures raise { (c : Class) → result ≡ Err (OpError.Raise c) → not_divided (operand a.now) ≡ Err c }
{
    match a {
        Value::Text(_) => Err(OpError::Raise(Class::ProfileError)),
        _ => Err(OpError::Raise(Class::TypeError)),
    }
}
