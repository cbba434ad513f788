// A bit, for the definitions of whatever is read as bits. There is no code here: specs/ has the words.
#![tactic(auto)]
