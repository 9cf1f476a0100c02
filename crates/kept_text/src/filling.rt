//! A template, and the values that stand in it.

ghost use Rattle.std.specs.Prelude.{◌≡◌, ℕ, List, ◌∷◌, ◌++◌, drop, IfOk, OnOk};
ghost use Rattle.kept_text.specs.Filling as spec;

use itoa::Buffer;
use std::alloc::AllocError;

/// What stands in a place of a template.
#[derive(Clone, Copy)]
pub enum Value<'a> {
    Bytes(&'a [u8]),
    Number(u64),
}

/// Appends a number in decimal.
fn put_number(out: &mut Vec<u8>, number: u64) -> Result<(), AllocError>
    ensures { OnOk result (out.new.items ≡ out.old.items ++ spec.value_text (Value.Number number)) }
{
    let mut buffer = Buffer::new();
    out.extend_from_slice(buffer.format(number).as_bytes())
}

fn put_value(out: &mut Vec<u8>, value: Value<'_>) -> Result<(), AllocError>
    ensures { OnOk result (out.new.items ≡ out.old.items ++ spec.value_text value.entry) }
{
    match value {
        Value::Bytes(bytes) => out.extend_from_slice(bytes),
        Value::Number(number) => put_number(out, number),
    }
}

/// Appends the value of this number, where there is one; then the number of the next.
fn put_next(out: &mut Vec<u8>, values: &[Value<'_>], next: usize) -> Result<usize, AllocError>
    ensures text { OnOk result (out.new.items ≡ out.old.items ++ spec.first_text (drop next values.now)) }
    ensures next { IfOk result (λ n. drop n values.now ≡ spec.behind_first (drop next values.now)) }
{
    match values.get(next) {
        Some(value) => {
            put_value(out, *value)?;
            Ok(next + 1)
        }
        None => Ok(next),
    }
}

/// Appends what a byte of a template stands for, where the values from this number on are left; then the number from which on they are.
fn put_byte(
    out: &mut Vec<u8>,
    byte: u8,
    values: &[Value<'_>],
    next: usize,
) -> Result<usize, AllocError>
    ensures { IfOk result (λ n. (rest : List ℕ) →
        out.new.items ++ spec.filled rest (drop n values.now) ≡ out.old.items ++ spec.filled (byte ∷ rest) (drop next values.now)) }
{
    match byte {
        b'{' => put_next(out, values, next),
        b'}' => Ok(next),
        _ => {
            out.push(byte)?;
            Ok(next)
        }
    }
}

/// Appends a template, with a value for each `{}` in it.
pub fn put_filled(
    out: &mut Vec<u8>,
    template: &[u8],
    values: &[Value<'_>],
) -> Result<(), AllocError>
    ensures { OnOk result (out.new.items ≡ out.old.items ++ spec.filled template.now values.now) }
{
    let mut next: usize = 0;
    for byte in template {
        next = put_byte(out, *byte, values, next)?;
    }
    Ok(())
}
