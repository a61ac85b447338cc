// A column read a reading at a time: the definition of one step and its laws, over any element, for every crate that walks a column without
// slots; and the one walk of a thin function that lends such a crate's state by `&mut`.
#![tactic(auto)]
