// Finite maps from outpoints as sorted cells: the definitions and laws that every view of coins rests on, and the search.
#![tactic(auto)]

pub mod search;
