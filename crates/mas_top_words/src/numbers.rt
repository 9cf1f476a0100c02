//! Numbers in words.

ghost use Rattle.std.specs.Prelude.{◌≡◌, ◌≤◌};
ghost use Rattle.mas_top_words.specs.Numbers as spec;

/// One to eight decimal digits, the first not 0, whose number is from `low` to `high`.
#[tactic(auto, using(crate::proofs::Digits::past))]
pub fn number_in(low: u64, high: u64, text: &[u8]) -> Option<u64>
    requires small { high ≤ 100000000 }
    ensures { result ≡ spec.number_in low high text.now }
{
    let [first, ..] = text else {
        return None;
    };
    if *first < b'1' || text.len() > 8 {
        return None;
    }
    let mut sum: u64 = 0;
    let mut rest = text;
    'digits: while let Some((d, after)) = rest.split_first() {
        if sum > high || *d < b'0' || *d > b'9' {
            return None;
        }
        sum = sum * 10 + (*d - b'0') as u64;
        rest = after;
    }
    if low <= sum && sum <= high {
        Some(sum)
    } else {
        None
    }
}
