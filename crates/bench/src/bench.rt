use board::board::Board;
use memory::memory::Bytes;
use recogniser::station::Station;
use select::Select;

/// A board over bytes with its select record, and the output where each call is printed with its answer.
#[derive(Drop)]
pub(crate) struct Bench<'a, P> {
    pub(crate) rt: &'a P,
    pub(crate) board: Board<Bytes<'a>, Station>,
    pub(crate) select: Select,
}

impl<'a, P: Print> Bench<'a, P> {
    /// A bench whose board is shut.
    pub(crate) fn new(rt: &'a P, cells: &'a mut [u8], station: Station) -> Bench<'a, P> {
        Bench {
            rt,
            board: Board::new(Bytes::new(cells), station),
            select: Select::new(),
        }
    }
}
