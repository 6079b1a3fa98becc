// The rule: documents, layouts, page, spans, cost, the choice, and their theory: definitions and theorems only, in specs/ and proofs/.
#![tactic(auto)]
