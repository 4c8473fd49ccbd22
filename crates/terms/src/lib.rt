#![tactic(auto)]

// Terms: what a state of a written design stands for. It has no code: read specs/.
