// Lists: words that the definitions share: a choice, a part of a list, "some number below n", the first check that
// fails, whether two lists are the same. It holds no function.
// Read specs/ in the order of specs/Lib.antt: definitions at the door, laws in the folder behind each. Read next:
// crate rules.
#![tactic(auto)]
