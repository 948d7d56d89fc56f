// Long mixed lists of calls on piles of views, beside a plain model.
#![tactic(auto)]

mod drive;
mod model;
mod piles;
#[cfg(test)]
mod tests;
