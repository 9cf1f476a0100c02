//! The lines of one list that another has not, or has less often.

ghost use Rattle.std.specs.Prelude.{◌≡◌, ◌≤◌, length, drop, map, IfOk};
ghost use Rattle.look_lines.specs.Differences as spec;

use std::alloc::{AllocError, Global};

/// The lines without the first that is this one.
fn without<'a>(alloc: Global, lines: &[&'a [u8]], line: &[u8]) -> Result<Vec<&'a [u8]>, AllocError>
    ensures { IfOk result (λ v. map (λ l. l.now) v.items ≡ spec.without line.now (map (λ l. l.now) lines.now)) }
{
    let mut out = Vec::new(alloc);
    for (index, item) in lines.iter().enumerate() {
        if *item == line {
            out.extend_from_slice(&lines[index + 1..])?;
            return Ok(out);
        }
        out.push(*item)?;
    }
    Ok(out)
}

/// How many lines both lists have in common at their front.
fn common(lines: &[&[u8]], others: &[&[u8]]) -> usize
    ensures within { result ≤ length lines.now }
    ensures both { result ≤ length others.now }
    ensures same { let xs = map (λ l. l.now) lines.now in
        let ys = map (λ l. l.now) others.now in
        spec.minus (drop result xs) (drop result ys) ≡ spec.minus xs ys }
{
    let most = lines.len().min(others.len());
    for at in 0..most {
        if lines[at] != others[at] {
            return at;
        }
    }
    most
}

/// The lines without, for each of the others, the first that is that one; in their order.
pub fn minus<'a>(
    alloc: Global,
    lines: &[&'a [u8]],
    others: &[&[u8]],
) -> Result<Vec<&'a [u8]>, AllocError>
    ensures { IfOk result (λ v. map (λ l. l.now) v.items ≡ spec.minus (map (λ l. l.now) lines.now) (map (λ l. l.now) others.now)) }
{
    let front = common(lines, others);
    let mut left = Vec::from_slice(alloc, &lines[front..])?;
    let rest = &others[front..];
    for other in rest {
        left = without(alloc, left.as_slice(), other)?;
    }
    Ok(left)
}

/// What is left has each line as often as the first list has it more often than the second, in the order of the first.
pub fn difference_holds()
    ensures often { spec.LeavesTheRest }
    ensures order { spec.KeepsOrder }
{}
