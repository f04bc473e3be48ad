//! Small runs of the definitions, computed: what each line answers and leaves was worked out from the rules by hand. Nothing stands
//! on this crate.
#![tactic(auto)]
