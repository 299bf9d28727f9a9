// The numbers that stand for an item in a text line.
ghost use Rattle.std.specs.Prelude.{◌≡◌, ◌≤◌, [], ◌∷◌, ◌++◌, length, take, if◌then◌else◌, Some, None, nat_lt};
ghost use Rattle.std.specs.Option.{option_map};

use std::array;

// Up to four numbers: the first `count` of the values. An array with a count is copied as an item is; a vector of fixed
// capacity is not.
#[derive(Clone, Copy)]
pub struct Fields {
    values: [u64; 4],
    count: usize,
    ghost few: { count ≤ 4 },
    ghost room: { length values ≡ 4 },
}

impl Fields {
    // The first four of these numbers, or all of them where there are no more.
    pub fn of(numbers: &[u64]) -> Fields
        ensures { take result.count result.values ≡ take 4 numbers.now }
    {
        Fields {
            values: array::from_fn(|k| *numbers.get(k).unwrap_or(&0)),
            count: numbers.len().min(4),
        }
    }

    // The list with one number more behind it; none where it has four already.
    pub fn with(&self, n: u64) -> Option<Fields>
        ensures { option_map (λ f. take f.count f.values) result ≡ (if nat_lt self.now.count 4 then Some (take self.now.count self.now.values ++ n ∷ []) else None) }
    {
        if self.count >= 4 {
            return None;
        }
        let mut values = self.values;
        values[self.count] = n;
        Some(Fields {
            values,
            count: self.count + 1,
        })
    }

    pub fn as_slice(&self) -> &[u64]
        ensures { result.now ≡ take self.now.count self.now.values }
    {
        &self.values[0..self.count]
    }
}
