//! How often each code was reported.

ghost use Rattle.std.specs.Prelude.{◌≡◌, ◌+◌};
ghost use Rattle.ssh_findings.specs.CodeCounts.{counted, for_each_code, number_in, number_of, plus_codes_within, sum_within, times};

use crate::code::Code;
use crate::finding::Coded;

/// How many codes there are.
const CODES: usize = 22;

/// How often each code was reported.
#[derive(Clone, Copy, Debug, PartialEq, Eq)]
pub struct CodeCounts {
    /// The number of each code, in ascending order of the codes. There is none before the first
    /// finding, so that a line without findings costs nothing.
    numbers: Option<[u64; CODES]>,
}

/// How often each code is among these findings.
fn numbers_of<F: Coded>(found: &[F]) -> [u64; CODES]
    ensures { result ≡ for_each_code (times F.code found.now) }
{
    let mut numbers = [0; CODES];
    for finding in found {
        let place = finding.code().place();
        numbers[place] += 1;
    }
    numbers
}

/// The sums of the numbers of each code.
fn sums(left: &[u64; CODES], right: &[u64; CODES]) -> [u64; CODES]
    ensures { result ≡ for_each_code (λ c. sum_within (number_in left.now c) (number_in right.now c)) }
{
    let mut sums = [0; CODES];
    for place in 0..CODES {
        sums[place] = left[place].saturating_add(right[place]);
    }
    sums
}

impl CodeCounts {
    /// No findings.
    pub const NONE: CodeCounts = CodeCounts { numbers: None };

    /// How often each code is among these findings.
    #[tactic(auto, unfolding(crate::specs::CodeCounts::counted))]
    pub fn of<F: Coded>(found: &[F]) -> CodeCounts
        ensures { result ≡ counted F.code found.now }
    {
        match found {
            [] => CodeCounts::NONE,
            [_, ..] => CodeCounts {
                numbers: Some(numbers_of(found)),
            },
        }
    }

    /// How often this code was reported.
    #[tactic(auto, unfolding(crate::specs::CodeCounts::number_of))]
    pub fn get(self, code: Code) -> u64
        ensures { result ≡ number_of self code }
    {
        match self.numbers {
            None => 0,
            Some(numbers) => numbers[code.place()],
        }
    }

    /// The sums of both. A sum stops at 2^64 - 1, since a count that wraps around would be wrong.
    #[tactic(auto, unfolding(crate::specs::CodeCounts::plus_codes_within))]
    pub fn plus(self, other: CodeCounts) -> CodeCounts
        ensures { result ≡ plus_codes_within self other }
    {
        match (self.numbers, other.numbers) {
            (None, _) => other,
            (Some(_), None) => self,
            (Some(left), Some(right)) => CodeCounts {
                numbers: Some(sums(&left, &right)),
            },
        }
    }
}
