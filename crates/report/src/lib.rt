// What a live report is, what its steps answer, and that its page is the rule's. Definitions and theorems; no code.
#![tactic(auto)]
