//! Laws of the definitions of `um_model`: what the machine, its plans, the store and the lives of a manager keep. They stand apart
//! from the definitions since only the crates above those of words and trees cite them.
#![tactic(auto)]
