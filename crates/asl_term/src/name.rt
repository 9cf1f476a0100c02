//! The names of variables. A short one stands in the value itself, so that a copy takes no memory.

ghost use Rattle.std.specs.Prelude.{◌≡◌, ◌≤◌, ◌↔◌, length, IsTrue, IfOk};
ghost use Rattle.std.specs.Str.{bytes_eq};

use crate::boxed::Boxed;
use crate::sequence::{Seq, Starved};
use crate::syntax::Text;
use std::alloc::Global;
use std::marker::Model;

/// So many bytes stand in the value itself.
const ROOM: usize = 22;

/// Where a name is kept.
pub enum Kept {
    /// So many of these bytes.
    Short(u8, [u8; 22]),
    Long(Boxed<Text>),
}

impl Drop for Kept {
    fn drop(self) {
        match self {
            Kept::Short(_, _) => {}
            Kept::Long(_) => {}
        }
    }
}

/// A name. Contracts see its bytes.
pub struct Name {
    kept: Kept,
}

/// By hand, so that a crate above that lets one go proves nothing of its parts.
impl Drop for Name {
    fn drop(self) {
        let Name { kept: _ } = self;
    }
}

impl Model for Name {
    ghost use Rattle.std.specs.Prelude.{ℕ, List};
    ghost use Rattle.std.specs.Coded.{coded_ℕ, coded_list};
    ghost use Rattle.asl_term.specs.Kept.{bytes_of, IsKept};

    ghost Value = { List ℕ };

    ghost coded = { coded_list coded_ℕ };

    ghost view = { λ n. bytes_of n.kept };

    ghost invariant = { λ n. IsKept n.kept };
}

/// The name of so few bytes.
fn short(bytes: &[u8]) -> Name
    requires { length bytes.now ≤ 22 }
    ensures { result ≡ bytes.now }
{
    let mut kept = [0u8; 22];
    for i in 0..bytes.len() {
        kept[i] = bytes[i];
    }
    Name {
        kept: Kept::Short(bytes.len() as u8, kept),
    }
}

/// The name of these bytes.
pub fn name_of(alloc: Global, bytes: &[u8]) -> Result<Name, Starved>
    ensures { IfOk result (λ n. n ≡ bytes.now) }
{
    if bytes.len() <= ROOM {
        return Ok(short(bytes));
    }
    let text = match bytes.to_vec(alloc) {
        Ok(items) => Seq::from_vec(items),
        Err(_) => return Err(Starved),
    };
    let kept = Kept::Long(Boxed::new(alloc, text)?);
    Ok(Name { kept })
}

/// An equal name.
pub fn copy_name(alloc: Global, n: &Name) -> Result<Name, Starved>
    ensures { IfOk result (λ r. r ≡ n.now) }
{
    match &n.kept {
        Kept::Short(len, bytes) => Ok(Name {
            kept: Kept::Short(*len, *bytes),
        }),
        Kept::Long(t) => name_of(alloc, t.get().as_slice()),
    }
}

impl Name {
    /// Its bytes, in order, where they stand.
    pub fn as_slice(&self) -> &[u8]
        ensures { result.now ≡ self.now }
    {
        match &self.kept {
            Kept::Short(len, bytes) => &bytes[..*len as usize],
            Kept::Long(t) => t.get().as_slice(),
        }
    }
}

/// Whether two names are the same, byte by byte.
pub fn same_name(a: &Name, b: &Name) -> bool
    ensures same { IsTrue result ↔ (a.now ≡ b.now) }
    ensures value { result ≡ bytes_eq a.now b.now }
{
    a.as_slice() == b.as_slice()
}
