// Numbers by their digits, and bitwise circuits: definitions and lemmas that the ciphers share. It has no code.

#![tactic(auto)]
