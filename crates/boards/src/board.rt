// What a link board is: it keeps a set of ordered pairs of bays, of which the first links to the second.
ghost use Rattle.std.specs.Prelude.{◌≡◌, ℕ, ◌<◌, true};
ghost use Rattle.boards.specs.Boards.{Links, SameLinks, no_links, after_put, after_drop, bays_into, bays_out_of, if_bay, if_bays};

use items::Refusal;

// A call that names a bay above 31 is refused and changes nothing; no other call is refused.
pub trait Board: Sized {
    ghost linked: { Self → Links };

    fn new() -> Self
        ensures { SameLinks (linked result) no_links };

    // Makes one bay link to another, or to itself.
    fn put(&mut self, from: u8, to: u8) -> Result<(), Refusal>
        ensures answer { result ≡ if_bays from to tt }
        ensures after { SameLinks (linked self.new) (after_put (linked self.old) from to) };

    // Removes every pair that names the bay.
    fn drop_bay(&mut self, bay: u8) -> Result<(), Refusal>
        ensures answer { result ≡ if_bay bay tt }
        ensures after { SameLinks (linked self.new) (after_drop (linked self.old) bay) };

    // Whether the first bay links to the second. Each question says itself that it leaves the set as it was.
    fn has(&self, from: u8, to: u8) -> Result<bool, Refusal>
        ensures answer { result ≡ if_bays from to (linked self.now from to) }
        ensures after { SameLinks (linked self.exit.now) (linked self.entry.now) };

    // The bays that link to this one, as a number in which bay k counts 2^k.
    fn links_into(&self, bay: u8) -> Result<u32, Refusal>
        ensures answer { result ≡ if_bay bay (bays_into (linked self.now) bay) }
        ensures after { SameLinks (linked self.exit.now) (linked self.entry.now) };

    // The bays that this one links to, as a number in which bay k counts 2^k.
    fn links_out(&self, bay: u8) -> Result<u32, Refusal>
        ensures answer { result ≡ if_bay bay (bays_out_of (linked self.now) bay) }
        ensures after { SameLinks (linked self.exit.now) (linked self.entry.now) };

    ghost only_bays: { (s : Self) (a b : ℕ) → linked s a b ≡ true → (a < 32) × (b < 32) };
}
