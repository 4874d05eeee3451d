// What a record of edition 2 holds beside its odds and stamps.

// The map's head, and whether its sweep is open.
#[derive(Clone, Copy)]
pub struct Loaded<M> {
    pub map: M,
    pub running: bool,
}
