// The pairs of states that a walk has met, in the order in which it met them. A pair is looked for only among those of its chain, by a number made of
// its two states. Heads and links hold a place plus one; 0 ends a chain.
ghost use Rattle.std.specs.Prelude.{◌≡◌, ◌+◌, ◌<◌, ◌≤◌, set};
ghost use Rattle.std.proofs.Props.{props};
ghost use Rattle.language.specs.Limits.{walked_pairs};
ghost use Rattle.clash.specs.Chains.{chain_of, Chained};

use language::limits::PAIRS;

// Room for one pair more than a walk may reach: so many show that it is too long.
pub(crate) const STOPS: usize = PAIRS + 1;

// The chains of the table.
pub(crate) const CHAINS: usize = 4093;

// Which chain a pair is in.
fn chain_of(a: u16, b: u16) -> usize
    ensures value { result ≡ chain_of a b }
    ensures upper_bound { result < 4093 }
{
    (a as usize * 769 + b as usize) % 4093
}

pub(crate) fn narrow(x: usize) -> u16
    requires { x < 65536 }
    ensures { result ≡ x }
{
    x as u16
}

// The pairs that a walk has met: their states, the links and the heads of their chains, and how many they are.
#[derive(Drop)]
pub(crate) struct Stops {
    pub left: [u16; STOPS],
    pub right: [u16; STOPS],
    pub links: [u16; STOPS],
    pub heads: [u16; CHAINS],
    pub count: usize,
    pub ghost chained: { Chained left right links heads count } by { Prim.hlevel props },
}

impl Stops {
    ghost use Rattle.clash.specs.Chains.{Tested, Found, Met};

    // Whether the pair stands at i.
    fn stands(&self, i: usize, a: u16, b: u16) -> bool
        requires { i ≤ walked_pairs }
        ensures { Tested self.now.left self.now.right a b i result }
    {
        if self.left[i] == a {
            return self.right[i] == b;
        }
        false
    }

    // The place of a pair plus one, or 0.
    pub(crate) fn find(&self, a: u16, b: u16) -> usize
        ensures { Found self.now.left self.now.right self.now.count a b result }
    {
        let h = chain_of(a, b);
        let mut x = usize::from(self.heads[h]);
        while x != 0 {
            if self.stands(x - 1, a, b) {
                return x;
            }
            x = usize::from(self.links[x - 1]);
        }
        0
    }

    // One pair more.
    pub(crate) fn add(&mut self, a: u16, b: u16)
        requires { (self.old.count ≤ walked_pairs) × Found self.old.left self.old.right self.old.count a b 0 }
        ensures left_after { self.new.left ≡ set self.old.left self.old.count a }
        ensures right_after { self.new.right ≡ set self.old.right self.old.count b }
        ensures count_after { self.new.count ≡ self.old.count + 1 }
    {
        let n = self.count;
        let h = chain_of(a, b);
        self.left[n] = a;
        self.right[n] = b;
        self.links[n] = self.heads[h];
        self.heads[h] = narrow(n + 1);
        self.count = n + 1;
    }

    // A pair is listed behind the others where it is not there yet; where these are too many already, nothing more is listed.
    pub(crate) fn meet(&mut self, a: u16, b: u16)
        ensures { Met self.old.left self.old.right self.old.count a b self.new.left self.new.right self.new.count }
    {
        if PAIRS < self.count {
            return;
        }
        let i = self.find(a, b);
        if i == 0 {
            self.add(a, b);
        }
    }
}
