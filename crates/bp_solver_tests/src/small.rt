//! Every small instance, against a plain search over all allocations and prices.
use crate::instances::Row;

/// Rooms by night, and stays: at most three of each, with rates up to 3 and forecasts up to 2.
#[derive(Clone, Copy)]
pub struct Small<'a> {
    pub rooms: &'a [u64],
    pub stays: &'a [Row],
}

/// The last three digits of a number, the last one first.
fn digits(number: u64, base: u64) -> [u64; 3] {
    let base = base.max(1);
    [
        number % base,
        number / base % base,
        number / base / base % base,
    ]
}

/// How many units a stay takes of a night, where so many are sold.
fn takes(row: &Row, night: usize, units: u64) -> u64 {
    if row.0 as usize <= night && night < row.1 as usize {
        units
    } else {
        0
    }
}

impl Small<'_> {
    /// Whether no stay is sold above its forecast, and no night above its rooms.
    fn is_feasible(&self, sell: [u64; 3]) -> bool {
        for (row, units) in self.stays.iter().zip(sell.iter()) {
            if row.3 < *units {
                return false;
            }
        }
        for (night, rooms) in self.rooms.iter().enumerate() {
            if *rooms < self.taken(sell, night) {
                return false;
            }
        }
        true
    }

    /// The rooms of a night that an allocation takes.
    fn taken(&self, sell: [u64; 3], night: usize) -> u64 {
        let mut sum = 0u64;
        for (row, units) in self.stays.iter().zip(sell.iter()) {
            sum = sum.saturating_add(takes(row, night, *units));
        }
        sum
    }

    /// The revenue of an allocation.
    fn worth(&self, sell: [u64; 3]) -> u64 {
        let mut sum = 0u64;
        for (row, units) in self.stays.iter().zip(sell.iter()) {
            sum = sum.saturating_add(row.2.saturating_mul(*units));
        }
        sum
    }

    /// The greatest worth of a feasible allocation.
    pub fn optimum(&self) -> u64 {
        let mut best = 0;
        for number in 0..27u64 {
            let sell = digits(number, 3);
            if self.is_feasible(sell) {
                best = best.max(self.worth(sell));
            }
        }
        best
    }

    /// A stay's forecast at the part of its rate above its nights.
    fn surplus(row: &Row, prices: [u64; 3]) -> u64 {
        let mut asked = 0u64;
        for (night, price) in prices.iter().enumerate() {
            asked = asked.saturating_add(takes(row, night, *price));
        }
        row.3.saturating_mul(row.2.saturating_sub(asked))
    }

    /// What no allocation is worth more than, whatever the prices are.
    fn bound(&self, prices: [u64; 3]) -> u64 {
        let mut sum = 0u64;
        for (rooms, price) in self.rooms.iter().zip(prices.iter()) {
            sum = sum.saturating_add(rooms.saturating_mul(*price));
        }
        for row in self.stays {
            sum = sum.saturating_add(Small::surplus(row, prices));
        }
        sum
    }

    /// The least sums from each night over all price lists up to the greatest rate whose bound is the optimum. A night
    /// that there is not is free.
    pub fn least_sums(&self, optimum: u64) -> [u64; 3] {
        let mut least = [u64::MAX; 3];
        for number in 0..64u64 {
            let [first, second, third] = digits(number, 4);
            if self.bound([first, second, third]) == optimum {
                least = [
                    least[0].min(first.saturating_add(second).saturating_add(third)),
                    least[1].min(second.saturating_add(third)),
                    least[2].min(third),
                ];
            }
        }
        least
    }
}
