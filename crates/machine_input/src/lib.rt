// How the machine reads the tables of an accepted file: definitions only, in specs/.
#![tactic(auto)]
