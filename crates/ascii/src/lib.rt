// Text as the documents print it, and the control characters, for the definitions. There is no code here: specs/ has the words.
#![tactic(auto)]
