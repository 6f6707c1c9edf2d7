// Trees of darts that are known to have one word: over each dart a lesser one of its tree, or none, and then it is the top.
ghost use Rattle.std.specs.Prelude.{◌≡◌, ◌≤◌, eqb, ltb, length, replicate, count_by};
ghost use Rattle.std.specs.List.{range_with_len};
ghost use Rattle.maps.specs.Least.{nth};
ghost use Rattle.words.specs.Forest.{Descends, Placed, JoinsAll, top_of, joined, joined_all};

// What is over each dart, at index d - 1. 0 is no dart: indices in an array and no boxes, since the library has no heap.
#[derive(Drop)]
pub(crate) struct Forest {
    up: [u16; 1020],
    ghost lower: { Descends up },
}

// A dart stays a number, which `requires` bounds: every number from 1 to 1,020 has its place.
impl Forest {
    // Each dart is a tree of its own.
    #[tactic(auto, using(crate::proofs::Forest::descends_none))]
    pub(crate) fn new() -> Forest
        ensures { result.up ≡ replicate 1020 0 }
    {
        Forest { up: [0; 1020] }
    }

    // Whether a dart is over d.
    #[tactic(auto, using(crate::proofs::Forest::is_under_read))]
    pub(crate) fn is_under(&self, d: usize) -> bool
        requires { Placed d }
        ensures { result ≡ ltb 0 (nth self.now.up d) }
    {
        self.up[d - 1] != 0
    }

    // The top of d's tree: the least dart that is known to have its word.
    fn top(&self, d: usize) -> usize
        requires { Placed d }
        ensures found { result ≡ top_of self.now.up d }
        ensures placed { Placed result }
    {
        let mut top = d;
        let mut above = usize::from(self.up[d - 1]);
        // No range says how many darts are over d.
        while above != 0 {
            top = above;
            above = usize::from(self.up[top - 1]);
        }
        top
    }

    // The trees of d and e become one: the greater top goes under the lesser, which may be the least dart of its word.
    fn join(&mut self, d: usize, e: usize)
        requires first { Placed d }
        requires second { Placed e }
        ensures { self.new.up ≡ joined self.old.up d e }
    {
        let first = self.top(d);
        let second = self.top(e);
        // `as` and no `try_from`: a top is at most 1,020, so nothing else is to be answered.
        if first < second {
            self.up[second - 1] = first as u16;
        } else if second < first {
            self.up[first - 1] = second as u16;
        }
    }

    // Two starts are tied: the darts that have one label from them have one word.
    pub(crate) fn join_all(&mut self, queue: &[u16], lead: &[u16])
        requires { JoinsAll queue.now lead.now }
        ensures { self.new.up ≡ joined_all (length queue.now) queue.now lead.now self.old.up }
    {
        for (d, e) in queue.iter().zip(lead) {
            self.join(usize::from(*d), usize::from(*e));
        }
    }

    // How many darts have `start` for their top.
    pub(crate) fn tree_size(&self, m: usize, start: usize) -> usize
        requires { m ≤ 1020 }
        ensures { result ≡ count_by (λ d. eqb (top_of self.now.up d) start) (range_with_len 1 m) }
    {
        (1..m + 1).filter(|d| self.top(*d) == start).count()
    }
}
