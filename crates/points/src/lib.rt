// Points in closed cells: definitions, and the theorems about them. There is no code here.
#![tactic(auto)]
