// Bytes laid into a lent buffer, one behind another. There is no code here: specs/ has the words.
#![tactic(auto)]
