use std::sync::Mutex;

/// How many latches there are.
const LATCHES: usize = 256;

/// Latches of pages, which only save work: a thread that holds a page's latch works on the page without the lock, and
/// others that need the page wait instead of doing work that would come too late. Correctness doesn't depend on
/// latches. To avoid deadlock, a latch is taken before the lock, and no thread holds two.
#[derive(Drop)]
pub(crate) struct Latches {
    row: [Mutex<()>; LATCHES],
}

impl Latches {
    pub(crate) fn new() -> Latches {
        Latches {
            row: std::array::from_fn(|_| Mutex::new(())),
        }
    }

    /// The latch of a page. Pages share one if their numbers are equal modulo 256.
    pub(crate) fn of(&self, page: u32) -> &Mutex<()> {
        &self.row[page as usize % LATCHES]
    }
}
