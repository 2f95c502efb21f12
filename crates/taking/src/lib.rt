// What taking a step comes to, however its results are described: by a plan (`results`) or by monomials (`linear_form`). It stands below both and
// not in `plans`: it has no call, and there it would be checked again with every wrong answer that is tried of a plan.
#![tactic(auto)]
