// The signature of a state: the codes of its steps, and what each weighs.
ghost use Rattle.std.specs.Prelude.{◌≡◌, ◌+◌, ◌^◌, ◌<◌, ◌≤◌, length};
ghost use Rattle.refine.specs.Codes.{code as code_of, Placed, weight as weight_of};

use lts::steps::Step;

// The steps of a state, and for each state where the codes of its class begin.
#[derive(Clone, Copy)]
pub(crate) struct Signature<'a> {
    pub(crate) steps: &'a [Step],
    pub(crate) begins: &'a [u32],
    ghost placed: { Placed begins.now 126720 steps.now },
}

impl Signature<'_> {
    // A step's code stands for its label and the class of its target. It is counted from where the codes of that class begin.
    pub(crate) fn code(&self, step: Step) -> usize
        requires placed { step.target < length self.now.begins.now }
        requires small { code_of self.now.begins.now step < 2 ^ 64 }
        ensures { result ≡ code_of self.now.begins.now step }
    {
        self.begins[step.target] as usize + step.label
    }
}

// A number of at most 40 bits for each code. Equal sets of codes have equal sums, and few others do.
#[tactic(auto, using(crate::proofs::Weights::weight_most), unfolding(crate::specs::Codes::weight))]
pub(crate) fn weight(code: usize) -> u64
    ensures value { result ≡ weight_of code }
    ensures small { result ≤ 2 ^ 40 }
{
    let x = (code as u64).wrapping_mul(0x9E37_79B9_7F4A_7C15);
    let y = (x ^ (x >> 32)).wrapping_mul(0xD6E8_FEB8_6659_FD93);
    (y >> 24) + 1
}
