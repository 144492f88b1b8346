use rules::state::State;

// A board memory, with the registers, places and arrival of the board.
#[derive(Drop)]
pub(crate) struct Chip<M> {
    pub memory: M,
    pub state: State,
}
