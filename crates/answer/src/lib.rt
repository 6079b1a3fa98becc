// What a call answers, from file bytes, settings, sizes and limits to the page or the refusal: the one definition, and that it is the rule's page (in specs/ and proofs/).
#![tactic(auto)]
