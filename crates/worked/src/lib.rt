// The site sheet's starred lines, and counts of coverage's walk. Tables, and a statement over the rows of each: no code.
#![tactic(auto)]
