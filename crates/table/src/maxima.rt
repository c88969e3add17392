// Forty maxima of the rows held, one for each relation.
ghost use Rattle.std.specs.Prelude.{◌≡◌, ◌<◌, length, replicate, slice_index, slice_set};
ghost use Rattle.rows.specs.Lesser.{lesser};

use rows::relation::RELATIONS;

#[derive(Clone, Copy)]
pub struct Maxima {
    most: [u32; 40],
    ghost forty: { length most ≡ 40 },
}

impl Maxima {
    // The same maximum for each relation.
    pub fn all(most: u32) -> Maxima
        ensures { result.most ≡ replicate 40 most }
    {
        Maxima { most: [most; 40] }
    }

    // The maximum of one relation changed; nothing changes at a number that is no relation's.
    #[tactic(auto, using(std::proofs::lemmas::List::set_past))]
    pub fn limit(&mut self, relation: u32, most: u32)
        ensures { self.new.most ≡ slice_set self.old.most relation most }
    {
        if relation < RELATIONS {
            self.most[relation as usize] = most;
        }
    }

    // The maximum of one relation, 0 past them.
    pub fn of(&self, relation: u32) -> u32
        ensures { result ≡ slice_index self.now.most relation }
    {
        self.most.get(relation as usize).copied().unwrap_or(0)
    }

    // Each maximum, or that of others where that is less.
    #[tactic(auto, using(rows::proofs::Lessers::is_lesser))]
    pub fn lesser(&self, others: &[u32; 40]) -> [u32; 40]
        ensures { result ≡ lesser self.now.most others.now }
    {
        let mut out = *others;
        for (i, own) in self.most.iter().enumerate() {
            out[i] = out[i].min(*own);
        }
        out
    }
}
