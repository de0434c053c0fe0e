// What rounding to a float format means. Laws alone: no code.
#![tactic(auto)]
