// The lists lent to a reader, which hold 9 throughout before it.

#[derive(Clone, Copy)]
pub struct Lists<const CELLS: usize> {
    pub odds: [f64; CELLS],
    pub stamps: [u32; CELLS],
}

impl<const CELLS: usize> Lists<CELLS> {
    pub fn nines() -> Self {
        Lists {
            odds: [9.0; CELLS],
            stamps: [9; CELLS],
        }
    }

    pub fn are_nines(&self) -> bool {
        self.odds.iter().all(|x| *x == 9.0) && self.stamps.iter().all(|n| *n == 9)
    }
}
