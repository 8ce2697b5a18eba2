//! Whose turn it is.

/// How many clients there are.
pub const CLIENTS: usize = 3;

/// The order of the turns of three clients.
#[derive(Clone, Copy)]
pub enum Order {
    /// These, and again from the first.
    Cycle([usize; 3]),
    /// One that looks like chance, and is the same each time for the same seed.
    Seed(u64),
}

/// Every order in which three clients can go round.
pub const CYCLES: [[usize; 3]; 6] = [
    [0, 1, 2],
    [0, 2, 1],
    [1, 0, 2],
    [1, 2, 0],
    [2, 0, 1],
    [2, 1, 0],
];

/// Seeds of further orders.
pub const SEEDS: [u64; 6] = [1, 2, 3, 5, 8, 13];

impl Order {
    /// Whose turn is next.
    pub fn next(&mut self) -> usize {
        match *self {
            Order::Cycle(cycle) => {
                let [first, second, third] = cycle;
                *self = Order::Cycle([second, third, first]);
                first
            }
            Order::Seed(seed) => {
                // A congruence of the usual kind, whose high bits change enough.
                let next = seed
                    .wrapping_mul(6_364_136_223_846_793_005)
                    .wrapping_add(1_442_695_040_888_963_407);
                *self = Order::Seed(next);
                ((next >> 33) % 3) as usize
            }
        }
    }
}
