//! Names: the sign, the functor and the number of arguments of a literal.

ghost use Rattle.std.specs.Prelude.{◌≡◌, IfOk, OnOk};
ghost use Rattle.std.specs.List.{list_any};
ghost use Rattle.look_pieces.specs.Names as spec;

use asl_term::compare::same_text;
use asl_term::copying::copy_text;
use asl_term::printing::write_number;
use asl_term::sequence::{Seq, Starved};
use asl_term::syntax::{Literal, Text};
use std::alloc::Global;

/// The sign, the functor and the number of arguments.
pub struct Name {
    pub neg: bool,
    pub functor: Text,
    pub count: u64,
}

/// By hand, so that who lets one go proves nothing of its parts.
impl Drop for Name {
    fn drop(self) {
        let Name {
            neg: _,
            functor: _,
            count: _,
        } = self;
    }
}

pub type NameSet = Seq<Name>;

pub fn name_of(alloc: Global, l: &Literal) -> Result<Name, Starved>
    ensures { IfOk result (λ n. n ≡ spec.name_of l.now) }
{
    Ok(Name {
        neg: l.neg,
        functor: copy_text(alloc, &l.functor)?,
        count: l.args.len(),
    })
}

/// Whether a literal has this name.
pub fn is_named(l: &Literal, n: &Name) -> bool
    ensures { result ≡ spec.is_named l.now n.now }
{
    n.neg == l.neg && same_text(&n.functor, &l.functor) && n.count == l.args.len()
}

/// Whether two literals have one name.
pub fn same_name(a: &Literal, b: &Literal) -> bool
    ensures { result ≡ spec.same_name a.now b.now }
{
    a.neg == b.neg && same_text(&a.functor, &b.functor) && a.args.len() == b.args.len()
}

/// Whether the name of a literal is one of these.
pub fn has_name(names: &[Name], l: &Literal) -> bool
    ensures { result ≡ list_any (spec.is_named l.now) names.now }
{
    names.iter().any(|n| is_named(l, n))
}

/// The name of a literal goes last, unless it is there.
pub fn put_name(alloc: Global, names: &mut NameSet, l: &Literal) -> Result<(), Starved>
    ensures { OnOk result (names.new ≡ spec.with_name names.old l.now) }
{
    if has_name(names.as_slice(), l) {
        return Ok(());
    }
    names.push(name_of(alloc, l)?)
}

/// Writes a name: `p/1`, `~q/2`.
pub fn write_name(
    alloc: Global,
    neg: bool,
    functor: &Text,
    count: u64,
    out: &mut Text,
) -> Result<(), Starved> {
    if neg {
        out.push(b'~')?;
    }
    out.append(functor.as_slice())?;
    out.push(b'/')?;
    write_number(alloc, count, out)
}

/// Whether it is the name of a literal but for the number of arguments.
pub fn is_almost(l: &Literal, n: &Name) -> bool {
    n.neg == l.neg && same_text(&n.functor, &l.functor) && n.count != l.args.len()
}
