// That the machine finds the rule's answer, always ends, and never comes to what the Rust calls impossible: theorems only, in specs/.
#![tactic(auto)]
