// Rings of split cells: what a compatible sheet is, and the forms of it that the compatibility test and later splitting live on. There is
// no code here.
#![tactic(auto)]
