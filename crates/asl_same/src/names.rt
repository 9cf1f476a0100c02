//! Names of agents.

ghost use Rattle.std.specs.Prelude.{ℕ, ◌≡◌, ◌<◌, true, slice_get};

use asl_term::compare::same_text;
use asl_term::names::Names;

/// Whether the first so many of two lists of names are the same.
#[tactic(auto, using(crate::proofs::Items::name_here))]
fn same_first(a: &Names, b: &Names, n: u32) -> bool
    ensures { result ≡ true → (k : ℕ) → k < n → slice_get a.now k ≡ slice_get b.now k }
{
    for i in 0..n {
        let (Some(x), Some(y)) = (a.at(i + 1), b.at(i + 1)) else {
            return false;
        };
        if !same_text(x, y) {
            return false;
        }
    }
    true
}

/// Whether two lists of names are the same.
#[tactic(auto, using(crate::proofs::Items::same_list))]
pub fn same_names(a: &Names, b: &Names) -> bool
    ensures { result ≡ true → a.now ≡ b.now }
{
    let n = a.len();
    n == b.len() && same_first(a, b, n)
}
