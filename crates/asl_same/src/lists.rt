//! Lists and queues that are compared item by item.

ghost use Rattle.std.specs.Prelude.{ℕ, ◌≡◌, ◌<◌, true, length, slice_get, IfOk};
ghost use Rattle.std.specs.Option.{option_copied};

use asl_term::sequence::Starved;
use asl_term_queue::queue::Queue;
use std::alloc::Global;

/// What can be compared with another of its kind.
pub trait Same {
    /// Whether the two are the same. It may be said of two that are the same that they are not.
    fn same(&self, alloc: Global, other: &Self) -> Result<bool, Starved>
        ensures { IfOk result (λ r. r ≡ true → self.now ≡ other.now) };
}

/// Whether the first so many of two lists are the same.
fn same_first<T: Same>(alloc: Global, a: &[T], b: &[T], n: usize) -> Result<bool, Starved>
    ensures { IfOk result (λ r. r ≡ true → (k : ℕ) → k < n → slice_get a.now k ≡ slice_get b.now k) }
{
    for i in 0..n {
        let (Some(x), Some(y)) = (a.get(i), b.get(i)) else {
            return Ok(false);
        };
        let same = x.same(alloc, y)?;
        if !same {
            return Ok(false);
        }
    }
    Ok(true)
}

/// Whether two lists are the same.
#[tactic(auto, using(crate::proofs::Items::same_list))]
pub fn same_all<T: Same>(alloc: Global, a: &[T], b: &[T]) -> Result<bool, Starved>
    ensures { IfOk result (λ r. r ≡ true → a.now ≡ b.now) }
{
    let n = a.len();
    if n != b.len() {
        return Ok(false);
    }
    let same = same_first(alloc, a, b, n)?;
    Ok(same)
}

/// How many items a queue has. No memory holds what a number of 64 bits can't count.
#[tactic(auto, using(crate::proofs::Items::both_long))]
fn count_of<T>(q: &Queue<T>) -> Result<u64, Starved>
    ensures { IfOk result (λ n. n ≡ length q.now) }
{
    let (front, back) = q.parts();
    (front.len() as u64)
        .checked_add(back.len() as u64)
        .ok_or(Starved)
}

/// The item at a place of a queue.
#[tactic(auto, using(asl_intend::proofs::Placed::in_front, asl_intend::proofs::Placed::in_back))]
fn item_at<T>(q: &Queue<T>, k: u64) -> Option<&T>
    ensures { option_copied result ≡ slice_get q.now k }
{
    let (front, back) = q.parts();
    let k = k as usize;
    if k < front.len() {
        front.get(k)
    } else {
        back.get(k - front.len())
    }
}

/// Whether the first so many of two queues are the same.
fn same_front<T: Same>(alloc: Global, a: &Queue<T>, b: &Queue<T>, n: u64) -> Result<bool, Starved>
    ensures { IfOk result (λ r. r ≡ true → (k : ℕ) → k < n → slice_get a.now k ≡ slice_get b.now k) }
{
    for i in 0..n {
        let (Some(x), Some(y)) = (item_at(a, i), item_at(b, i)) else {
            return Ok(false);
        };
        let same = x.same(alloc, y)?;
        if !same {
            return Ok(false);
        }
    }
    Ok(true)
}

/// Whether two queues are the same, wherever their items stand.
#[tactic(auto, using(crate::proofs::Items::same_list))]
pub fn same_queue<T: Same>(alloc: Global, a: &Queue<T>, b: &Queue<T>) -> Result<bool, Starved>
    ensures { IfOk result (λ r. r ≡ true → a.now ≡ b.now) }
{
    let n = count_of(a)?;
    if n != count_of(b)? {
        return Ok(false);
    }
    let same = same_front(alloc, a, b, n)?;
    Ok(same)
}
