// The records of the bays of a watch.
ghost use Rattle.std.specs.Prelude.{◌≡◌, ◌<◌, ◌≤◌, cond, length, replicate, nat_lt, slice_set, Some, None};
ghost use Rattle.std.specs.Fn.{FnOnceReturnsAtMut};
ghost use Rattle.watch.specs.declared.bay_record.BayRecord.{BayRecord};
ghost use Rattle.watch.specs.States.{fresh_record, record_at};

use crate::bay_record::BayRecord;

// How many bays a cradle may have.
pub(crate) const MOST_BAYS: usize = 32;

// The first `count` records are those of the watch's bays. A plain struct with an
// array of all records is the form that this project gives to the table.
#[derive(Drop)]
pub struct Bays {
    records: [BayRecord; MOST_BAYS],
    count: u8,
    ghost few: { count ≤ 32 },
}

impl Bays {
    // So many bays, all of them idle.
    pub(crate) fn idle(count: u8) -> Bays
        requires { count ≤ 32 }
        ensures records { result.records ≡ replicate 32 fresh_record }
        ensures count { result.count ≡ count }
    {
        Bays {
            records: [BayRecord::default(); MOST_BAYS],
            count,
        }
    }

    // The record of a bay, if there is a bay of this number.
    pub(crate) fn get(&self, bay: u8) -> Option<BayRecord>
        ensures { result ≡ cond (nat_lt bay self.now.count) (Some (record_at self.now.records bay)) None }
    {
        if bay < self.count {
            Some(self.records[bay as usize])
        } else {
            None
        }
    }

    // Lends the record of a bay to be changed.
    pub(crate) fn change<F: FnOnce(&mut BayRecord)>(&mut self, bay: u8, change: F)
        requires within { bay < self.old.count }
        requires callable { F.IsAlwaysCallable change }
        ensures records { (after : BayRecord) × FnOnceReturnsAtMut F.FnOnce change (record_at self.old.records bay) tt after × (self.new.records ≡ slice_set self.old.records bay after) }
        ensures count { self.new.count ≡ self.old.count }
    {
        change(&mut self.records[bay as usize]);
    }
}
