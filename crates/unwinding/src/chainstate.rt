// The coins of a view, and the undo entries of what was done to them. That the view is in order stands at each call: a ghost
// field has one proof at most, and a view's being in order may have more.
use undo::Undo;

mod making;

#[derive(Drop)]
pub struct Chainstate<V> {
    pub view: V,
    pub undo: Undo,
}
