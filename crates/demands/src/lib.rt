// What a reader opens first: the demands of document 01 and its worked cells P1 to P10, each as one theorem that
// cites the other crates. There is no code here.
#![tactic(auto)]
