// The rows of the listings, as bytes. There is no code here: specs/ has the words.
#![tactic(auto)]
