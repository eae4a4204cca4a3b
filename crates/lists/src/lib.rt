#![tactic(auto)]

// Lists that are walked through words: what a walk answers. The definitions in specs/ and the laws in proofs/ are over functions, not over tables.
// What a walk leaves of its budget is a number, or none where it met something wrong.
